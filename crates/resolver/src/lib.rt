// The search: rounds of turns, each a tree of levels and parents, over the lent buffers.
#![tactic(auto)]

mod round;
mod rounds;
mod settle;
mod turn;

pub use rounds::search;
