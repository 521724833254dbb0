// Lent byte buffers: numbers and runs of bytes at a place, and what a length has room for. A buffer and a place travel side by side, since the contracts say
// of the whole buffer what it holds and what stays; there is no heap, and the memory is fixed.
#![tactic(auto)]

mod number;
mod room;
mod run;

pub use number::{get8, get16, get32, get64, put8, put16, put32, put64};
pub use room::units;
pub use run::{copy, copy_within, wipe, wipe_part};
