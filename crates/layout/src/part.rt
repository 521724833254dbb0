// The parts of W, for a code of n bytes, one after the other: a row of `row::ROW` bytes for the block of each address from 0 to n, as many rows for the
// addresses' fields, the worklist, the buckets of records, behind those in use the own states of blocks that were run, the part for runs, in cells of nine
// bytes, and, at the end of what W needs, the list of the blocks' starts.
// Where the worklist and the buckets begin, in bytes an address.
pub const LIST: usize = 40;

pub const BUCKETS: usize = 42;

// The bytes of an entry of the worklist, and of a bucket.
pub const ENTRY: usize = 2;

pub const BUCKET: usize = 4;

// "Work W needs 64 × code length + 256 bytes."
pub const NEED: usize = 64;

pub const NEED_MORE: usize = 256;

// What the buckets have of these: 9 bytes an address, and as many as the other parts leave of the rest.
pub const SHARE: usize = 9;

pub const SHARE_MORE: usize = 52;

// Of the own states: the bytes of a link, of which each address has one, and those that say how many cells are in use; then the cells.
pub const LINK: usize = 2;

pub const FILLED: usize = 4;

pub const CELL: usize = 9;

// The part for runs has a cell for each address, and so many more.
pub const RUNS_MORE: usize = 17;

// Where the list of the blocks' starts begins, which ends where W's need does, and the bytes of an entry.
pub const STARTS: usize = 62;

pub const STARTS_MORE: usize = 254;

pub const START: usize = 2;
