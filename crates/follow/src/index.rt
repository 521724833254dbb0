// The index of the blocks: with it a block is found in one step, however large the map is.
// "walks it block by block"
// No heap, fixed memory: it is rows of numbers in the bytes that are lent.
ghost use Rattle.std.specs.Prelude.{◌≡◌, ◌+◌, ◌*◌, ◌^◌, ◌<◌, ◌≤◌, length, replicate};
ghost use Rattle.follow.specs.Finding.{Ready, RowPut, Filled};

use crate::block::Blocks;
use crate::edges::link;
use lent::put64;

// A row of 16 bytes an address: one more than the offset of the block's entry, and the place of its count.
fn put_row(work: &mut [u8], start: usize, own: usize, slot: usize)
    requires start_in_bounds { 16 * start + 16 ≤ length work.old }
    requires own_bound { own + 1 < 2 ^ 64 }
    ensures { RowPut work.old start own slot work.new }
{
    put64(work, 16 * start, own + 1);
    put64(work, 16 * start + 8, slot);
}

// Writes a row for each block into zeros, and its edges behind the rows; gives the number of rows, or none where a block starts beyond the last.
// Map, `work` and rows stay apart: the index is being made, so there is no `Finder` of it yet.
fn fill_rows(map: &[u8], work: &mut [u8], rows: usize) -> Option<usize>
    requires ready { Ready map.now }
    requires work_value { work.old ≡ replicate (length work.old) 0 }
    requires rows_in_bounds { 16 * rows ≤ length work.old }
    ensures { Filled map.now work.old work.new result }
{
    let mut slot = 0;
    for block in (Blocks { map, at: 0 }) {
        if rows <= block.start {
            return None;
        }
        put_row(work, block.start, block.own, slot);
        let key = slot + 1;
        slot = key + link(map, work, rows, key, block.named);
    }
    Some(rows)
}

// Fills the zeros of `work`: as many rows as the last block asks for, where they fit. Any number would be right: it tells how many rows to try.
pub fn fill(map: &[u8], work: &mut [u8]) -> Option<usize>
    requires ready { Ready map.now }
    requires work_value { work.old ≡ replicate (length work.old) 0 }
    ensures { Filled map.now work.old work.new result }
{
    let last = (Blocks { map, at: 0 }).last()?;
    if work.len() / 16 <= last.start {
        return None;
    }
    fill_rows(map, work, last.start + 1)
}
