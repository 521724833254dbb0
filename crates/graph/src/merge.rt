// A DynamicJump whose records share one destination becomes a Jump.
// "A DynamicJump whose entries share one target becomes a Jump."
ghost use Rattle.std.specs.Prelude.{◌≡◌, ◌≤◌, ◌<◌};
ghost use Rattle.reachable.specs.Promises.{Room};
ghost use Rattle.graph.specs.Notes.{shared_of};
ghost use Rattle.graph.specs.Promises.{Merges, Notes, MergedRow, Merged, MergedAll};

use crate::kind::is_dynamic_jump;
use crate::note::note_all;
use layout::field::NOTE;
use layout::record::RECORD;
use layout::row::{BlockType, END, ROW, write_block};
use lent::{get16, get32};

// Merges the blocks by the records. W and the code's length stay two parameters here too: crates/reachable/src/lib.rt says why.
pub fn merge_all(w: &mut [u8], size: usize, r: &[u8], records: usize)
    requires { Notes size records w.old r.now }
    ensures { MergedAll size records w.old r.now w.new }
{
    note_all(w, size, r, records);
    merge(w, size, r, records);
}

// Merges by its note the block of every record: the others have no note.
fn merge(w: &mut [u8], size: usize, r: &[u8], records: usize)
    requires { Merges size records w.old r.now }
    ensures { Merged size w.old w.new }
{
    for row in 0..records {
        let start = get16(r, RECORD * row);
        merge_row(w, size, start);
    }
}

// The destination that all records of an address share, if its note says one: one that no code has stands for several.
fn shared(note: usize, size: usize) -> Option<usize>
    requires { size < 65536 }
    ensures { result ≡ shared_of size note }
{
    if note == 0 {
        return None;
    }
    if note > size + 1 {
        return None;
    }
    Some(note - 1)
}

// Merges the block that starts at `start`, if a DynamicJump does.
fn merge_row(w: &mut [u8], size: usize, start: usize)
    requires room { Room size w.old }
    requires start_le_size { start ≤ size }
    ensures { MergedRow size w.old start w.new }
{
    if !is_dynamic_jump(w, start) {
        return;
    }
    let note = get32(w, ROW * (size + 1 + start) + NOTE);
    let Some(to) = shared(note, size) else {
        return;
    };
    let end = get16(w, ROW * start + END);
    write_block(w, start, end, BlockType::Jump { to });
}
