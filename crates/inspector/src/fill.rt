// The rows of the blocks: one for each address, with one more than the offset of the block that starts there.
// "edges of that map"
ghost use Rattle.std.specs.Prelude.{◌≡◌, ◌<◌, length};
ghost use Rattle.inspector.specs.Symbols.{Lent};
ghost use Rattle.inspector.specs.Tables.{TablesTo, Filled, Noted};

use crate::entries::start_of;
use crate::replay::Replay;
use lent::put64;
use reader::{Step, next};

// Writes the row of a block that starts there and stands at an offset, if the code has the address; of another entry nothing.
fn note(replay: Replay, w: &mut [u8], start: Option<usize>, at: usize)
    requires at_in_bounds { at < length replay.map.now }
    requires lent { Lent replay.code.now w.old }
    ensures { Noted replay.entry.code.now w.old start at w.new }
{
    if let Some(start) = start {
        if start < replay.code.len() {
            put64(w, 8 * start, at + 1);
        }
    }
}

// Writes a row for each block.
pub fn fill(replay: Replay, w: &mut [u8])
    requires { TablesTo replay.map.now replay.code.now 0 w.old }
    ensures { Filled replay.entry.map.now replay.entry.code.now w.old w.new }
{
    let mut at = 0;
    while let Some(Step { entry, behind }) = next(replay.map, at) {
        note(replay, w, start_of(entry), at);
        at = behind;
    }
}
