// All path entries that are not right, as rows of 16 bytes: the offset and the place in its path.
// "Otherwise it names the place in the path of the first block that fails" "path entry not right, with its offset"
ghost use Rattle.std.specs.Prelude.{◌≤◌, length};
ghost use Rattle.exec.specs.Modes.{mode_of};
ghost use Rattle.reader.specs.Walks.{Walking};
ghost use Rattle.inspector.specs.Tables.{Tables};
ghost use Rattle.inspector.specs.Listing.{Rowed, Rest, Listed};

use crate::entries::{Wrong, entries};
use crate::replay::Replay;
use lent::put64;

// Writes a row, if it fits; whether one more would fit behind it.
fn put_row(rows: &mut [u8], at: usize, offset: usize, place: usize) -> bool
    requires { at ≤ length rows.old }
    ensures { Rowed rows.old at offset place rows.new result }
{
    let left = rows.len() - at;
    if left < 16 {
        return false;
    }
    put64(rows, at, offset);
    put64(rows, at + 8, place);
    32 <= left
}

// Writes those behind `first` into the rows behind its own; where the last row is full nothing is looked for.
fn rest(replay: Replay, w: &mut [u8], from: usize, first: Wrong, rows: &mut [u8])
    requires walking { Walking replay.map.now first.behind }
    requires tables { Tables replay.map.now replay.code.now w.old }
    requires in_bounds { 16 ≤ length rows.old }
    ensures { Rest (mode_of replay.entry.mode) replay.entry.map.now replay.entry.code.now from first.behind first.owner w.old rows.old w.new rows.new }
{
    let mut last = first;
    let mut at = 16;
    while let Err(wrong) = entries(replay, w, from, last.behind, last.owner) {
        if !put_row(rows, at, wrong.offset, wrong.place) {
            return;
        }
        last = wrong;
        at += 16;
    }
}

// Writes all of the map that stand at the offset `from` or later; an error is the first.
pub fn listed(replay: Replay, w: &mut [u8], from: usize, rows: &mut [u8]) -> Result<(), Wrong>
    requires { Tables replay.map.now replay.code.now w.old }
    ensures { Listed (mode_of replay.entry.mode) replay.entry.map.now replay.entry.code.now from w.old rows.old w.new rows.new result }
{
    let Err(first) = entries(replay, w, from, 0, 0) else {
        return Ok(());
    };
    if !put_row(rows, 0, first.offset, first.place) {
        return Err(first);
    }
    rest(replay, w, from, first, rows);
    Err(first)
}
