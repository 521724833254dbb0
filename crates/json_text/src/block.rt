// What is put of a block: where it starts and ends, and what its type says.
// "a list of objects with id, start, end, then type and data, as the attributes in mod.rs say"
ghost use Rattle.std.specs.Prelude.{◌≡◌, map, ◌+◌, ◌*◌, ◌^◌, ◌≤◌, ◌<◌, length};
ghost use Rattle.lent.specs.Bytes.{num_at};
ghost use Rattle.layout.specs.Parts.{ROW, row_place};
ghost use Rattle.layout.specs.Rows.{END, tag_at, tag_of};
ghost use Rattle.initial.specs.Rows.{kind_of};
ghost use Rattle.output.specs.Promises.{PutsFew};
ghost use Rattle.entries.specs.Rows.{entries_at};
ghost use Rattle.entries.specs.Promises.{RowsIn, LinkedAt, PutsBlock};
ghost use Rattle.json_text.specs.Rows.{front, tail_of, way_of, block_text};
ghost use Rattle.json_text.specs.Promises.{Sides};

use crate::listing::add_ways;
use entries::found::Found;
use layout::row::{BlockType, END, ROW, block_at};
use lent::get16;
use output::Output;

// Its id, which is its start, its start and its end.
fn add_front(w: &[u8], start: usize, output: &mut Output<'_>)
    requires { (row_place start + ROW ≤ length w.now) × (start < 65536) × (output.old.end + 37 ≤ 2 ^ 62) }
    ensures { PutsFew 37 output.old (front start (num_at 2 w.now (row_place start + END))) output.new }
{
    output.add_named(b"{\"id\":", start);
    output.add_named(b",\"start\":", start);
    output.add_named(b",\"end\":", get16(w, ROW * start + END));
}

// Its type, and the rows that it lists.
fn add_type(found: &Found<'_>, start: usize, block: BlockType, output: &mut Output<'_>)
    requires { (LinkedAt found.now.size found.now.rows found.now.w.now found.now.r.now start)
        × (RowsIn found.now.r.now found.now.q.now found.now.rows) × (Sides block) × (output.old.end + 128 ≤ 2 ^ 61) }
    ensures { PutsFew (2 ^ 36 + 96) output.old
        (tail_of (map (way_of found.now.r.now found.now.q.now) (entries_at found.now.r.now found.now.rows start (tag_of block))) (kind_of block)) output.new }
{
    match block {
        BlockType::Terminate { success: false } => {
            output.add_text(b",\"type\":\"Terminate\",\"data\":{\"success\":false}}");
        }
        BlockType::Terminate { success: true } => {
            output.add_text(b",\"type\":\"Terminate\",\"data\":{\"success\":true}}");
        }
        BlockType::Jump { to } => {
            output.add_named(b",\"type\":\"Jump\",\"data\":{\"to\":", to);
            output.add_text(b"}}");
        }
        BlockType::Jumpi { to, other } => {
            output.add_named(b",\"type\":\"Jumpi\",\"data\":{\"true_to\":", to);
            output.add_named(b",\"false_to\":", other);
            output.add_text(b"}}");
        }
        BlockType::DynamicJump => {
            output.add_text(b",\"type\":\"DynamicJump\",\"data\":{\"to\":[");
            add_ways(found, start, block, output);
            output.add_text(b"]}}");
        }
        BlockType::DynamicJumpi { other } => {
            output.add_text(b",\"type\":\"DynamicJumpi\",\"data\":{\"true_to\":[");
            add_ways(found, start, block, output);
            output.add_named(b"],\"false_to\":", other);
            output.add_text(b"}}");
        }
    }
}

// The block at `start`.
pub fn add_block(found: &Found<'_>, start: usize, output: &mut Output<'_>)
    requires { (PutsBlock found.now.size found.now.rows found.now.w.now found.now.r.now found.now.q.now start output.old.end)
        × (tag_at found.now.w.now start ≡ 0 → ⊥) }
    ensures { PutsFew (2 ^ 36 + 256) output.old (block_text found.now.w.now found.now.r.now found.now.q.now found.now.rows start) output.new }
{
    let block = block_at(found.w, start).unwrap();
    add_front(found.w, start, output);
    add_type(found, start, block, output);
}
