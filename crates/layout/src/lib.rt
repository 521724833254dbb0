// Where everything stands in the lent buffers: the parts and the rows of W, the rows of R in its two meanings, and those of T. docs/LAYOUT.md draws them.
#![tactic(auto)]

pub mod buffers;
pub mod edge;
pub mod field;
pub mod part;
pub mod record;
pub mod row;
pub mod seen;

// "Refusals: 1 now means over 49,152".
pub const LONGEST: usize = 49152;

// "code over 24,576 bytes writes kinds 10, 11 and 12 in place of 7, 8 and 9".
pub const NARROW: usize = 24576;

// "a missing destination is 0x8000", and in code over that "a missing destination is 0xFFFF".
pub const MISSING: usize = 0x8000;

pub const MISSING_WIDE: usize = 0xFFFF;

// The rows' own mark for it: it lies above every address of a code that is taken.
pub const NOWHERE: usize = 0xFFFF;
