// An edge of the map, found in a few steps: by the table of edges that were found, or by the row of the block that it leaves.
// "blocks joined by edges of that map"
// W has a number of 8 bytes for each address, one more than the offset of the block that starts there, and five for each address of edges found.
// No heap, fixed memory: they are numbers in the bytes that are lent.
ghost use Rattle.std.specs.Prelude.{◌<◌, length};
ghost use Rattle.inspector.specs.Edges.{Sought};
ghost use Rattle.inspector.specs.Tables.{Tables, Between, Joined};

use crate::replay::Replay;
use crate::seek::seek;
use lent::{get64, put64};

// Looks for it at the block that starts at `from`, if there is one.
fn near(replay: Replay, w: &[u8], from: usize, to: usize) -> bool
    requires tables { Tables replay.map.now replay.code.now w.now }
    requires from_in_bounds { from < length replay.code.now }
    ensures { Sought replay.entry.map.now to from result }
{
    match get64(w, 8 * from).checked_sub(1) {
        Some(at) => seek(replay.map, at, from, to),
        None => false,
    }
}

// Whether the map has an edge between two starts.
pub fn joined(replay: Replay, w: &mut [u8], from: usize, to: usize) -> bool
    requires tables { Tables replay.map.now replay.code.now w.old }
    requires between { Between replay.code.now from to }
    ensures { Joined replay.entry.map.now replay.entry.code.now w.old from to w.new result }
{
    let size = replay.code.len();
    let at = 8 * (size + (from * 251 + to) % (5 * size));
    let pair = from * 65536 + to + 1;
    if get64(w, at) == pair {
        return true;
    }
    if !near(replay, w, from, to) {
        return false;
    }
    put64(w, at, pair);
    true
}
