// Prepares the blocks for the search: dynamic jumps that their own block settles, the blocks that take turns, and the direct parents.
// "Those ending in Before(p) take turns, in address order ... Direct parents are stored before the first round, in address order"
#![tactic(auto)]

pub mod link;
mod settle;
pub mod taker;

ghost use Rattle.exec.specs.Modes.{mode_of};
ghost use Rattle.parents.specs.Promises.{Lent, LentStarts, Prepared, PreparesRow, PreparedRow};

use crate::link::link_sides;
use crate::settle::settle;
use exec::mode::Mode;
use initial::start_at;

// Prepares every block, in a mode, from the last to the first, so that each address's parents come out in address order, and the blocks that take turns
// against it; gives how many take turns. The list of the `blocks` starts leads to them, so that no row is read to see whether a block starts there.
// W and `end`, here and in `prepare_row`: the part for runs is W's own bytes, and no slice of it, since places in it are W's (no heap, fixed memory).
pub fn prepare(mode: Mode, code: &[u8], w: &mut [u8], end: usize, blocks: usize) -> usize
    requires lent { Lent code.now w.old end }
    requires lent_starts { LentStarts code.now w.old end blocks }
    ensures { Prepared (mode_of mode) code.now w.old end w.new result }
{
    let size = code.len();
    let mut many = 0;
    for place in (0..blocks).rev() {
        let start = start_at(w, size, place);
        many = prepare_row(mode, code, w, end, start, many);
    }
    many
}

// Prepares the block that starts at an address.
fn prepare_row(
    mode: Mode,
    code: &[u8],
    w: &mut [u8],
    end: usize,
    start: usize,
    many: usize,
) -> usize
    requires { PreparesRow (mode_of mode) code.now w.old end start many }
    ensures { PreparedRow (mode_of mode) code.now w.old end start many w.new result }
{
    let taken = settle(mode, code, w, end, start, many);
    link_sides(w, start);
    taken
}
