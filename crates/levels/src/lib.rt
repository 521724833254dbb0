// A level and its parents, each of which may open a level, over the lent buffers.
#![tactic(auto)]

mod levels;

pub use levels::level;
