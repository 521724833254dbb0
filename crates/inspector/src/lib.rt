// The map inspector (document 02, No. 12): it replays the paths of a stored map, whoever made it.
#![tactic(auto)]

mod call;
mod edge;
mod entries;
mod fill;
mod known;
mod list;
mod path;
mod replay;
mod seek;
mod symbol;

pub use call::{inspect, inspect_from};
