// The answer's entries, counted and written from what the search left in the lent buffers; and how a block, its rows and a row's path are found there, which
// the text asks too.
#![tactic(auto)]

mod block;
mod family;
pub mod found;
mod kept;
mod listing;
mod row;
pub mod whole;
