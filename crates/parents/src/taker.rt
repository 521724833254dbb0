// The blocks that take turns, as an array that stands in the rows, one entry in each, so that a walk over them waits for no row before it knows the next.
// "Those ending in Before(p) take turns, in address order"
ghost use Rattle.std.specs.Prelude.{◌+◌, ◌*◌, ◌≤◌, length};
ghost use Rattle.layout.specs.Parts.{ROW, row_place};
ghost use Rattle.layout.specs.Rows.{position_at, taker_at};
ghost use Rattle.parents.specs.Writes.{take_turn};
ghost use Rattle.parents.specs.Promises.{Wrote, Number, TurnRoom};

use layout::row::{POSITION, ROW, TAKER};
use lent::{get16, get32, put16, put32};

// Puts the block at `start`, which asks for a position, behind the `many` that take turns.
pub fn take_turn(w: &mut [u8], start: usize, position: usize, many: usize)
    requires { TurnRoom w.old start many }
    ensures { Wrote w.old w.new (take_turn w.old start position many) }
{
    put32(w, ROW * start + POSITION, position);
    put16(w, ROW * many + TAKER, start);
}

// The position that the block at `start` asks for.
pub fn position_at(w: &[u8], start: usize) -> usize
    requires { row_place start + ROW ≤ length w.now }
    ensures { Number result (position_at w.now start) 4 }
{
    get32(w, ROW * start + POSITION)
}

// The start of a block that takes turns, by its place among them: the last block has place 0.
pub fn taker_at(w: &[u8], place: usize) -> usize
    requires { row_place place + ROW ≤ length w.now }
    ensures { Number result (taker_at w.now place) 2 }
{
    get16(w, ROW * place + TAKER)
}
