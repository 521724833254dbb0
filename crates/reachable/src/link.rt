// Rows of edges in a lent buffer, 32 bytes each, linked by their place and by their witness. A link, as the first row of a key, is a row's number and 1
// more, and 0 for none.
// "Pruning follows a dynamic entry only if its path's last block is reached too"
// W and the code's length stay two parameters, in `first_link` and `first_row` too: who reads W holds it to write it too, so a struct of both would be made for each call (lib.rt).
ghost use Rattle.std.specs.Prelude.{◌≡◌, ◌+◌, ◌*◌, ◌-◌, ◌≤◌, ◌<◌, length};
ghost use Rattle.layout.specs.Edges.{link_at};
ghost use Rattle.layout.specs.Fields.{head_at};
ghost use Rattle.layout.specs.Records.{RECORD, record_place};
ghost use Rattle.reachable.specs.Links.{link_of};
ghost use Rattle.reachable.specs.Keys.{offset_of};
ghost use Rattle.reachable.specs.Pruning.{EdgeRow, Links, Linked, LinkedRow};
ghost use Rattle.reachable.specs.Promises.{Room, Address};

use layout::edge::{LINKS, PLACE, WITNESS};
use layout::field::HEADS;
use layout::record::RECORD;
use layout::row::ROW;
use lent::{get16, get32, put32};

// What rows are linked by.
// Neither is the lack of the other, so an Option would be no plainer.
#[derive(Clone, Copy)]
pub enum By {
    Place,
    Witness,
}

impl By {
    // Where a row has the key.
    pub fn offset(self) -> usize
        ensures { result ≡ offset_of self }
    {
        match self {
            By::Place => PLACE,
            By::Witness => WITNESS,
        }
    }

    // The row's other key.
    pub fn other(self) -> By
        ensures { offset_of result ≡ 4 - offset_of self }
    {
        match self {
            By::Place => By::Witness,
            By::Witness => By::Place,
        }
    }
}

// Links the rows by one of their keys, from the last to the first.
pub fn link(w: &mut [u8], size: usize, r: &mut [u8], rows: usize, by: By)
    requires { Links size rows (offset_of by) w.old r.old }
    ensures { Linked size rows (offset_of by) w.old r.old w.new r.new }
{
    for row in (0..rows).rev() {
        link_row(w, size, r, row, by);
    }
}

// The link to the first row of the key `key`.
fn first_link(w: &[u8], size: usize, key: usize, by: By) -> usize
    requires { Address size w.now key }
    ensures { result ≡ head_at w.now size (offset_of by) key }
{
    get32(w, ROW * (size + 1 + key) + (HEADS + by.offset()))
}

// The first row of the key `key`.
pub fn first_row(w: &[u8], size: usize, key: usize, by: By) -> Option<usize>
    requires { Address size w.now key }
    ensures { link_of result ≡ head_at w.now size (offset_of by) key }
{
    first_link(w, size, key, by).checked_sub(1)
}

// The next row of the same key after a row.
pub fn next_row(r: &[u8], row: usize, by: By) -> Option<usize>
    requires { record_place row + RECORD ≤ length r.now }
    ensures { link_of result ≡ link_at r.now (offset_of by) row }
{
    get32(r, RECORD * row + (LINKS + by.offset())).checked_sub(1)
}

// Puts a row before the rows of its key.
fn link_row(w: &mut [u8], size: usize, r: &mut [u8], row: usize, by: By)
    requires room { Room size w.old }
    requires edge_row { EdgeRow size r.old row }
    requires row_bound { row < 1073741824 }
    ensures { LinkedRow size (offset_of by) w.old r.old row w.new r.new }
{
    let offset = by.offset();
    let key = get16(r, RECORD * row + offset);
    let next = first_link(w, size, key, by);
    put32(r, RECORD * row + (LINKS + offset), next);
    put32(w, ROW * (size + 1 + key) + (HEADS + offset), row + 1);
}
