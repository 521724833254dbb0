// The whole text.
// "also fills a text buffer, which a refusal leaves as it is"
ghost use Rattle.std.specs.Prelude.{◌≡◌, true, ◌^◌, length};
ghost use Rattle.spec.specs.Rooms.{units};
ghost use Rattle.initial.specs.Rows.{Listed};
ghost use Rattle.output.specs.Promises.{PutsFew};
ghost use Rattle.entries.specs.Promises.{Holds, PutsBlocks, Writes};
ghost use Rattle.json_text.specs.Rows.{map_text};
ghost use Rattle.json_text.specs.Promises.{IsBytes, FitsRoom, Written};

use crate::kept::add_blocks;
use entries::found::Found;
use output::Output;

// The whole: put where it ends within the buffer, counted in any case.
fn add_map(found: &Found<'_>, output: &mut Output<'_>)
    requires { (PutsBlocks found.now.size found.now.rows found.now.w.now found.now.r.now found.now.q.now output.old.end)
        × (Listed found.now.size found.now.w.now found.now.blocks) × (output.old.end ≡ 0) }
    ensures { PutsFew (2 ^ 54) output.old (map_text found.now.w.now found.now.r.now found.now.q.now found.now.size found.now.rows) output.new }
{
    output.add_text(b"[");
    add_blocks(found, output);
    output.add_text(b"]");
}

// What three buffers hold is bytes: told to the proof, where the buffers stand in a struct; nothing is done.
fn hold_bytes(w: &[u8], r: &[u8], q: &[u8])
    ensures { (IsBytes w.now) × (IsBytes r.now) × (IsBytes q.now) }
{}

// Whether the text has at most `room` bytes. Energy and choice are no part of it.
pub fn text_fits(found: &Found<'_>, room: usize) -> bool
    requires { Holds found.now 0 }
    ensures { FitsRoom found.now.w.now found.now.r.now found.now.q.now found.now.size found.now.rows room result }
{
    // No text is longer: with its comma a block has at most 100 bytes, a way 23 and 6 for each address of its path.
    hold_bytes(found.w, found.r, found.q);
    let ends = found.begin_of(found.rows);
    if 2 + 100 * found.flags + 23 * found.rows + 6 * ends <= room {
        return true;
    }
    // It is put into a byte that nobody reads, to be counted.
    let mut none = [0u8; 1];
    let mut output = Output {
        bytes: &mut none,
        end: 0,
    };
    add_map(found, &mut output);
    output.end <= room
}

// Writes the text, which `out` has room for: the number of its bytes.
pub fn write_text(found: &Found<'_>, out: &mut [u8]) -> usize
    requires { (Writes found.now.w.now found.now.r.now found.now.q.now found.now.size found.now.rows 0)
        × (Listed found.now.size found.now.w.now found.now.blocks)
        × (FitsRoom found.now.w.now found.now.r.now found.now.q.now found.now.size found.now.rows (units (length out.old) 1) true) }
    ensures { Written found.now.w.now found.now.r.now found.now.q.now found.now.size found.now.rows out.old out.new result }
{
    // Read for its bound: the paths end below 2^32, so that no count passes 64 bits.
    let _ends = found.begin_of(found.rows);
    let mut output = Output { bytes: out, end: 0 };
    add_map(found, &mut output);
    output.end
}
