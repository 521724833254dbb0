// The fields of an address in W, in the row that stands n + 1 rows after its block's. The mark is first: when the address was reached.
// The first and the last found parent, and how often the address is on the path in hand.
pub const FIRST_FOUND: usize = 4;

pub const LAST_FOUND: usize = 8;

pub const COUNT: usize = 12;

// The highest direct parent that is marked, as a link; no link above it leads to a marked one.
pub const HIGHEST: usize = 16;

// Whether its sides have been followed, or wait to be.
pub const FLAG: usize = 18;

// After the search, in the place of the count, which is 0 then: the one destination of the address's records.
pub const NOTE: usize = 12;

// Then, in the place of found parents: the first row of edges of which the address is the place and, `edge::WITNESS` bytes on, of which it is the witness.
pub const HEADS: usize = 4;
