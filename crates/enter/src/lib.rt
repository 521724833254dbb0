// What is done with a parent of a level, up to the level that it may open, over the lent buffers.
#![tactic(auto)]

pub mod enter;
