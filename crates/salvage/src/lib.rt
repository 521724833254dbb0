// Salvage of an archive of stored maps (document 02, No. 14): its first map, all that are copied, and the copy.
#![tactic(auto)]

mod copied;
mod first;
mod judge;

pub use copied::salvage;
