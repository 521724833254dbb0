// The note of each address, among its fields of others in W: the one destination of its records and 1 more, 0 for none, SEVERAL for more.
// "A DynamicJump whose entries share one target becomes a Jump."
ghost use Rattle.std.specs.Prelude.{◌≡◌, ◌<◌};
ghost use Rattle.reachable.specs.Promises.{Room};
ghost use Rattle.graph.specs.Notes.{joined};
ghost use Rattle.graph.specs.Promises.{Starts, NotedRow, Notes, Noted};

use layout::NOWHERE;
use layout::field::NOTE;
use layout::record::{RECORD, TO};
use layout::row::ROW;
use lent::{get16, get32, put32};

const SEVERAL: usize = 0xFFFF_FFFF;

// Notes the destinations of the records, where no note stands yet. Of W and the code's length crates/reachable/src/lib.rt says why they stay two parameters.
pub fn note_all(w: &mut [u8], size: usize, r: &[u8], records: usize)
    requires { Notes size records w.old r.now }
    ensures { Noted size records w.old r.now w.new }
{
    for row in 0..records {
        note(w, size, r, row);
    }
}

// Notes the destination of a record, if it has one.
fn note(w: &mut [u8], size: usize, r: &[u8], row: usize)
    requires room { Room size w.old }
    requires starts { Starts size r.now row }
    ensures { NotedRow size w.old r.now row w.new }
{
    let to = get16(r, RECORD * row + TO);
    if to == NOWHERE {
        return;
    }
    let start = get16(r, RECORD * row);
    let at = ROW * (size + 1 + start) + NOTE;
    let old = get32(w, at);
    put32(w, at, join(old, to));
}

// A note with one destination more. It is a number, as it stands in W (docs/LAYOUT.md).
fn join(old: usize, to: usize) -> usize
    requires { to < 65536 }
    ensures { result ≡ joined old to }
{
    if old == 0 {
        return to + 1;
    }
    if old == to + 1 {
        return old;
    }
    SEVERAL
}
