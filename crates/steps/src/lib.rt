// The steps of the search that open no level: a block's parents one after the other, the path in hand, a parent's state, what was met, what is found.
#![tactic(auto)]

pub mod cursor;
pub mod land;
pub mod meet;
pub mod own;
pub mod path;
pub mod plan;
pub mod state_of;

use tables::Counts;

// A level: the addresses of its path in P, the stack position that it asks for, the place and the length in S, in cells, of the path's state, and 256 less
// the path's weight.
#[derive(Clone, Copy)]
pub struct Level {
    pub np: usize,
    pub position: usize,
    pub from: usize,
    pub cells: usize,
    pub left: usize,
}

// How a search goes: the energy used, and what is in use.
#[derive(Clone, Copy)]
pub struct Run {
    pub energy: usize,
    pub counts: Counts,
}
