// The tables of the search in lent bytes: the path in hand, recorded paths, records and remembered rows.
#![tactic(auto)]

mod add;
mod chain;
mod link;
pub mod met;
mod path;
mod record;
mod recording;
pub mod row;
mod shelf;
mod sum;

pub use record::end_before;
pub use recording::record_entry;

// How many units of each buffer count as lent.
#[derive(Clone, Copy)]
pub struct Rooms {
    pub p: usize,
    pub s: usize,
    pub t: usize,
    pub r: usize,
    pub q: usize,
}

// How much of the lent buffers is in use: records, addresses in Q, kept cells at the top of S, other cells at its bottom, and remembered rows (no heap, fixed memory).
#[derive(Clone, Copy)]
pub struct Counts {
    pub records: usize,
    pub addresses: usize,
    pub kept: usize,
    pub used: usize,
    pub rows: usize,
}

// What is to be recorded: the turn's start, the destination if there is one, the place and the length in S, in cells, of the state to keep, and the energy so far.
#[derive(Clone, Copy)]
pub struct Entry {
    pub start: usize,
    pub to: Option<usize>,
    pub from: usize,
    pub cells: usize,
    pub energy: usize,
}
