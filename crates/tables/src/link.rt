// A new record's row in R, and the links that lead to it: from its bucket, and from the found parents of its destination.
// "rows in order of insertion, searched"; and of the record's number: "It is kept in the R row from the moment of recording".
// W and the code's length stay two parameters: W is lent to the lookup before, so a struct of both would be made for each record. The buckets' number goes alone (`bucket_of`).
ghost use Rattle.std.specs.Prelude.{◌+◌, ◌*◌, ◌≤◌, length};
ghost use Rattle.lent.specs.Bytes.{Stored};
ghost use Rattle.layout.specs.Records.{RECORD, record_place, R-NEXT};
ghost use Rattle.tables.specs.Links.{says_bytes, link_bytes, row_bytes, Joins, Joined, Links, Linked};

use crate::record::bucket_of;
use layout::NOWHERE;
use layout::field::{FIRST_FOUND, LAST_FOUND};
use layout::part::{BUCKET, BUCKETS};
use layout::record::{ENDS, ENERGY, KEPT, LINK, NEXT, RECORD, SUM, TO};
use layout::row::ROW;
use lent::{get32, put16, put32};

// What a record's row says: its turn's start, its destination if there is one, the ends of its path in Q and of its kept cells in S, its path's sum, and
// its number.
#[derive(Clone, Copy)]
pub struct Fields {
    pub start: usize,
    pub to: Option<usize>,
    pub ends: usize,
    pub kept: usize,
    pub sum: usize,
    pub energy: usize,
}

// Stores what a record's row says of its path and its state.
fn put_says(r: &mut [u8], at: usize, fields: Fields)
    requires { at + 12 ≤ length r.old }
    ensures { Stored 12 r.old at (says_bytes fields) r.new }
{
    put16(r, at, fields.start);
    put16(r, at + TO, fields.to.unwrap_or(NOWHERE));
    put32(r, at + ENDS, fields.ends);
    put32(r, at + KEPT, fields.kept);
}

// Stores the links, the sum and the number of the record whose row begins at `at`; it has no next parent yet.
fn put_links(r: &mut [u8], at: usize, link: usize, sum: usize, energy: usize)
    requires { at + RECORD ≤ length r.old }
    ensures { Stored 16 r.old (at + R-NEXT) (link_bytes link sum energy) r.new }
{
    put32(r, at + NEXT, 0);
    put32(r, at + LINK, link);
    put32(r, at + SUM, sum);
    put32(r, at + ENERGY, energy);
}

// Stores the row of a record, with the given link.
fn put_row(r: &mut [u8], row: usize, fields: Fields, link: usize)
    requires { record_place row + RECORD ≤ length r.old }
    ensures { Stored 28 r.old (record_place row) (row_bytes fields link) r.new }
{
    put_says(r, RECORD * row, fields);
    put_links(r, RECORD * row, link, fields.sum, fields.energy);
}

// Puts a record behind the found parents of its destination.
fn link_parent(w: &mut [u8], r: &mut [u8], size: usize, to: usize, row: usize)
    requires { Joins size w.old r.old to row }
    ensures { Joined size w.old r.old row w.new r.new }
{
    let at = ROW * (size + 1 + to);
    let last = get32(w, at + LAST_FOUND);
    put32(w, at + LAST_FOUND, row + 1);
    if last == 0 {
        return put32(w, at + FIRST_FOUND, row + 1);
    }
    put32(r, RECORD * (last - 1) + NEXT, row + 1)
}

// Stores the row of a record and puts it on its chains.
pub fn link_record(
    w: &mut [u8],
    r: &mut [u8],
    size: usize,
    buckets: usize,
    row: usize,
    fields: Fields,
)
    requires { Links size buckets w.old r.old row fields }
    ensures { Linked size buckets w.old r.old row fields w.new r.new }
{
    let at = BUCKETS * (size + 1) + BUCKET * bucket_of(fields.sum, buckets);
    let head = get32(w, at);
    put_row(r, row, fields, head);
    put32(w, at, row + 1);
    if let Some(to) = fields.to {
        link_parent(w, r, size, to, row);
    }
}
