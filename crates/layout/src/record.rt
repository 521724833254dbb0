// A record's row in R: the start of its turn is first.
// The bytes of a row.
pub const RECORD: usize = 32;

// Where its fields stand: its destination, where its path ends in Q and its kept cells in S, the next found parent of the same destination, the next record
// of the same bucket, its path's sum, and its number, the energy when it was made.
pub const TO: usize = 2;

pub const ENDS: usize = 4;

pub const KEPT: usize = 8;

pub const NEXT: usize = 12;

pub const LINK: usize = 16;

pub const SUM: usize = 20;

pub const ENERGY: usize = 24;
