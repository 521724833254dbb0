// The JSON text of the answer's blocks, counted and written from what the search left in the lent buffers.
#![tactic(auto)]

mod block;
mod comma;
mod kept;
mod listing;
mod way;
mod whole;

pub use whole::{text_fits, write_text};
