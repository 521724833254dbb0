// Symbols and stored states: their cells in lent bytes, a position read, composing with a parent, comparing.
#![tactic(auto)]

pub mod cell;
pub mod compose;
pub mod read;
pub mod same;
pub mod sym;
