// What was met in a turn: remembering it, and forgetting all of it when the turn ends.
// "when a turn ends, T and the cells of its first and remembered states are free and used again"
ghost use Rattle.std.specs.Prelude.{◌≡◌, ◌+◌, ◌^◌, ◌<◌};
ghost use Rattle.tables.specs.Rows.{Shelves};
ghost use Rattle.tables.specs.Replies.{reply_of};
ghost use Rattle.tables.specs.Mets.{Memorizes, Memorized, Begins, Emptied, remembering};

use crate::record::bucket_of;
use crate::row::Seen;
use crate::shelf::{push_row, stamp_at};
use crate::{Counts, Rooms};
use layout::seen::{HEAD, SEEN};
use lent::put32;
use refusal::Shortage;

// The counts with a row more.
fn counted_row(counts: Counts, seen: Seen) -> Counts
    requires { (counts.used + seen.cells < 2 ^ 64) × (counts.rows + 1 < 2 ^ 64) }
    ensures { result ≡ remembering counts seen }
{
    Counts {
        used: counts.used + seen.cells,
        rows: counts.rows + 1,
        ..counts
    }
}

// Remembers what was seen, whose sum is given, where T has room. A refusal leaves T as it was.
pub fn remember(
    s: &[u8],
    t: &mut [u8],
    rooms: Rooms,
    counts: Counts,
    buckets: usize,
    seen: Seen,
    sum: usize,
) -> Result<Counts, Shortage>
    requires { Memorizes buckets rooms t.old s.now counts seen sum }
    ensures { Memorized buckets rooms t.old s.now counts seen t.new (reply_of counts result) }
{
    if rooms.t < counts.rows + 1 {
        return Err(Shortage::T);
    }
    push_row(t, buckets, counts.rows, seen, sum);
    Ok(counted_row(counts, seen))
}

// Empties the buckets before the first turn.
pub fn begin_rows(t: &mut [u8], buckets: usize)
    requires { Begins buckets t.old }
    ensures { Emptied buckets t.old t.new }
{
    for bucket in 0..buckets {
        put32(t, SEEN * bucket + HEAD, 0);
    }
}

// Empties the buckets that the rows of a turn are in.
// T and its rows stay two parameters: the rows in use are a part of a lent room (no heap, fixed memory).
pub fn forget(t: &mut [u8], buckets: usize, rows: usize)
    requires { Shelves buckets t.old rows }
    ensures { Emptied buckets t.old t.new }
{
    for row in 0..rows {
        let bucket = bucket_of(stamp_at(t, row), buckets);
        put32(t, SEEN * bucket + HEAD, 0);
    }
}
