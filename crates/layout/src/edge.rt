// A row of R after the search: the record of the row as an edge. Its start, which is the edge's place, its number, which
// stands at `record::ENERGY`, and the row's length stay.
// Where its fields stand: the edge's place, its destination, its witness, which is the last block of the path, the record's own destination, and where the
// path ends in Q.
pub const PLACE: usize = 0;

pub const TO: usize = 2;

pub const WITNESS: usize = 4;

pub const OWN: usize = 6;

pub const ENDS: usize = 16;

// The next row of the same place and, `WITNESS` bytes on, of the same witness.
pub const LINKS: usize = 8;
