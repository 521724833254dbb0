// A remembered row in T: the path's last block is first.
// The bytes of a row.
pub const SEEN: usize = 32;

// Where its fields stand: the symbol, in a cell, the mark, the place and the length of the state in S, the sum, and the next row of the same bucket.
pub const SYMBOL: usize = 2;

pub const MARK: usize = 11;

pub const FROM: usize = 12;

pub const CELLS: usize = 16;

pub const SUM: usize = 20;

pub const LINK: usize = 24;

// The head of the bucket that has the row's number, whether or not the row is in use.
pub const HEAD: usize = 28;
