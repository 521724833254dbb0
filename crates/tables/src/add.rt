// A record more: its path goes to Q, its state to the kept cells of S, and its row to R, with its links there and in W.
// "one kept copy for each record with a destination"
ghost use Rattle.std.specs.Prelude.{◌≡◌, ◌+◌, ◌-◌, ◌*◌, ◌≤◌, length, take, drop};
ghost use Rattle.lent.specs.Bytes.{Stored};
ghost use Rattle.tables.specs.Addrs.{Path};
ghost use Rattle.tables.specs.Tables.{mem, fields, counted, Counting, Keeps, Adds, Added};

use crate::link::{Fields, link_record};
use crate::path::PathInHand;
use crate::{Counts, Entry, Rooms};
use lent::{copy, copy_within};
use state::cell::CELL;

// What the row of a new record is to say.
fn fields_of(counts: Counts, np: usize, entry: Entry, sum: usize) -> Fields
    requires { Counting counts np entry }
    ensures { result ≡ fields counts np entry sum }
{
    Fields {
        start: entry.start,
        to: entry.to,
        ends: counts.addresses + np,
        kept: counts.kept + entry.cells,
        sum,
        energy: entry.energy,
    }
}

// The counts with a record more.
fn counted_with(counts: Counts, np: usize, entry: Entry) -> Counts
    requires { Counting counts np entry }
    ensures { result ≡ counted counts np entry.cells }
{
    Counts {
        records: counts.records + 1,
        addresses: counts.addresses + np,
        kept: counts.kept + entry.cells,
        ..counts
    }
}

// Copies the path in hand to Q, from the address `at` on.
fn keep_path(path: &PathInHand<'_>, q: &mut [u8], at: usize)
    requires { (Path path.now.p.now 0 path.now.np) × (2 * (at + path.now.np) ≤ length q.old) }
    ensures { Stored (2 * path.now.np) q.old (2 * at) (take (2 * path.now.np) (drop 0 path.now.p.now)) q.new }
{
    copy(q, 2 * at, path.p, 0, 2 * path.np)
}

// Copies a state of S to the kept cells: `kept` with it, from the end of the room.
fn keep_state(s: &mut [u8], room: usize, kept: usize, from: usize, cells: usize)
    requires { Keeps s.old room kept from cells }
    ensures { Stored (9 * cells) s.old (9 * (room - kept)) (take (9 * cells) (drop (9 * from) s.old)) s.new }
{
    copy_within(s, CELL * from, CELL * (room - kept), CELL * cells)
}

// Appends a record of the path in hand, whose sum is given, where there is room for it.
// The buffers stay apart, as in `record_entry`; so do the code's length and the buckets' number, since either is used by itself too (`link_parent`, `bucket_of`).
pub fn add_record(
    w: &mut [u8],
    path: &PathInHand<'_>,
    s: &mut [u8],
    r: &mut [u8],
    q: &mut [u8],
    rooms: Rooms,
    counts: Counts,
    size: usize,
    buckets: usize,
    entry: Entry,
    sum: usize,
) -> Counts
    requires { Adds path.now.p.now path.now.np size buckets rooms (mem w.old r.old q.old s.old) counts entry sum }
    ensures { Added path.now.p.now path.now.np size buckets rooms (mem w.old r.old q.old s.old) counts entry
        (mem w.new r.new q.new s.new) result }
{
    let fields = fields_of(counts, path.np, entry, sum);
    link_record(w, r, size, buckets, counts.records, fields);
    keep_path(path, q, counts.addresses);
    keep_state(s, rooms.s, fields.kept, entry.from, entry.cells);
    counted_with(counts, path.np, entry)
}
