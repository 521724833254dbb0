// A path entry with a destination, judged in one pass over its path.
// "accepts each path entry with a destination only if replaying it in the mode the caller names is right"
ghost use Rattle.exec.specs.Modes.{mode_of};
ghost use Rattle.state.specs.Symbols.{sym_of};
ghost use Rattle.inspector.specs.Tables.{Tables};
ghost use Rattle.inspector.specs.Judging.{InPath, Begins, Along, Judged};

use crate::edge::joined;
use crate::known::is_sound;
use crate::replay::Replay;
use crate::symbol::{is_jumpdest, looked, taken};
use reader::address;
use state::sym::StackSym;

// A path: where its addresses stand, how many they are, and its destination.
#[derive(Clone, Copy)]
pub struct Path {
    pub at: usize,
    pub count: usize,
    pub to: usize,
}

// The blocks behind the first, with the symbol that its jump takes. An error is "the place in the path of the first block that fails".
fn along(
    replay: Replay,
    w: &mut [u8],
    path: Path,
    first: usize,
    symbol: StackSym,
) -> Result<(), usize>
    requires tables { Tables replay.map.now replay.code.now w.old }
    requires in_path { InPath replay.map.now path }
    requires begins { Begins path first (sym_of symbol) }
    ensures { Along (mode_of replay.entry.mode) replay.entry.map.now replay.entry.code.now w.old path first symbol w.new result }
{
    let mut last = first;
    let mut found = symbol;
    for place in 1..path.count {
        let start = address(replay.map, path.at, path.count, place);
        if !is_sound(replay.code, start) {
            return Err(place);
        }
        if !joined(replay, w, start, last) {
            return Err(place);
        }
        found = looked(replay, w, start, found);
        last = start;
    }
    if is_jumpdest(found, path.to) {
        return Ok(());
    }
    Err(0)
}

// A path entry of the block at `owner`. An error is "the place in the path of the first block that fails, 0 if the path is empty or only the symbol differs".
pub fn judge(replay: Replay, w: &mut [u8], owner: usize, path: Path) -> Result<(), usize>
    requires tables { Tables replay.map.now replay.code.now w.old }
    requires in_path { InPath replay.map.now path }
    ensures { Judged (mode_of replay.entry.mode) replay.entry.map.now replay.entry.code.now w.old owner path w.new result }
{
    if path.count == 0 {
        return Err(0);
    }
    let first = address(replay.map, path.at, path.count, 0);
    if !is_sound(replay.code, first) {
        return Err(0);
    }
    if owner != first {
        return Err(0);
    }
    let symbol = taken(replay, w, first);
    along(replay, w, path, first, symbol)
}
