// Pruning's closure: static sides, and rows of edges that lead on only when their place and their witness are both reached.
// "Pruning follows a dynamic entry only if its path's last block is reached too, and never follows the true side of DynamicJumpi."
// W, the code's length, R and the rows' number stay apart: W is lent to others in between, so a struct would be made anew at each call (lib.rt).
ghost use Rattle.std.specs.Prelude.{◌≡◌, []};
ghost use Rattle.reachable.specs.Keys.{offset_of};
ghost use Rattle.reachable.specs.Marks.{flagged};
ghost use Rattle.reachable.specs.Pruning.{RowGoing, FollowedRow, RowsGoing, FollowedRows, Pruning, AllGoing, FollowedEdges, FollowedAll, PrunedFrom, Prunes, LinkedBoth, Pruned};

use crate::fields::{begin, is_flagged};
use crate::follow::{enter, follow, last};
use crate::link::{By, first_row, link, next_row};
use layout::NOWHERE;
use layout::edge::TO;
use layout::record::RECORD;
use lent::get16;

// Takes the destination of a row, whose one key is flagged, if it has one and the other key is flagged too.
fn follow_row(w: &mut [u8], size: usize, r: &[u8], row: usize, by: By, count: usize) -> usize
    requires { RowGoing size (offset_of by) w.old r.now row count }
    ensures { FollowedRow size (offset_of by) r.now row w.old count w.new result }
{
    let to = get16(r, RECORD * row + TO);
    if to == NOWHERE {
        return count;
    }
    let other = get16(r, RECORD * row + by.other().offset());
    if is_flagged(w, size, other) {
        return enter(w, size, to, 1, count);
    }
    count
}

// Follows the rows that have the key `key`.
fn follow_rows(
    w: &mut [u8],
    size: usize,
    r: &[u8],
    rows: usize,
    key: usize,
    by: By,
    count: usize,
) -> usize
    requires { RowsGoing size rows (offset_of by) w.old r.now key count }
    ensures { FollowedRows size rows (offset_of by) r.now key w.old count w.new result }
{
    let mut more = count;
    let mut next = first_row(w, size, key, by);
    while let Some(row) = next {
        more = follow_row(w, size, r, row, by, more);
        next = next_row(r, row, by);
    }
    more
}

// Follows the rows of which `address` is the place, and those of which it is the witness.
fn follow_edges(
    w: &mut [u8],
    size: usize,
    r: &[u8],
    rows: usize,
    address: usize,
    count: usize,
) -> usize
    requires { AllGoing size rows w.old r.now address count }
    ensures { FollowedEdges size rows r.now address w.old count w.new result }
{
    let more = follow_rows(w, size, r, rows, address, By::Place, count);
    follow_rows(w, size, r, rows, address, By::Witness, more)
}

// Follows `address`: its static sides, and its rows.
fn follow_all(
    w: &mut [u8],
    size: usize,
    r: &[u8],
    rows: usize,
    address: usize,
    count: usize,
) -> usize
    requires { AllGoing size rows w.old r.now address count }
    ensures { FollowedAll size rows r.now address w.old count w.new result }
{
    let more = follow(w, size, address, 1, count);
    follow_edges(w, size, r, rows, address, more)
}

// Flags all that is reached from 0; the answer is how many addresses that are, since each waits in the worklist once.
fn follow_from(w: &mut [u8], size: usize, r: &[u8], rows: usize) -> usize
    requires pruning { Pruning size rows w.old r.now }
    requires size_value { flagged w.old size ≡ [] }
    ensures { PrunedFrom size rows r.now w.old w.new result }
{
    let mut count = enter(w, size, 0, 1, 0);
    let mut flags = 0;
    while count != 0 {
        flags += 1;
        let address = last(w, size, count);
        count = follow_all(w, size, r, rows, address, count - 1);
    }
    flags
}

// Links the rows by both keys, over a wiped W.
fn link_both(w: &mut [u8], size: usize, r: &mut [u8], rows: usize)
    requires { Prunes size rows w.old r.old }
    ensures { LinkedBoth size rows w.old r.old w.new r.new }
{
    begin(w, size);
    link(w, size, r, rows, By::Place);
    link(w, size, r, rows, By::Witness);
}

// Flags what pruning keeps: what is reached from 0 over static sides and over the rows of edges in r. The answer is how many addresses are flagged.
pub fn prune(w: &mut [u8], size: usize, r: &mut [u8], rows: usize) -> usize
    requires { Prunes size rows w.old r.old }
    ensures { Pruned size rows w.old r.old w.new r.new result }
{
    link_both(w, size, r, rows);
    follow_from(w, size, r, rows)
}
