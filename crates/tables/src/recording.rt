// Recording the path in hand: unless it is recorded already, and where R, then Q, then S have room.
// "A record needs R, then Q, then (with a destination) S."
ghost use Rattle.std.specs.Prelude.{◌≡◌};
ghost use Rattle.tables.specs.Tables.{mem, new_found, Ready};
ghost use Rattle.tables.specs.Replies.{code_of, reply_of};
ghost use Rattle.tables.specs.Recording.{short_of, entry_needs, Testing, Recorded};

use crate::add::add_record;
use crate::chain::found;
use crate::path::PathInHand;
use crate::record::PathLookup;
use crate::{Counts, Entry, Rooms};
use layout::NOWHERE;
use refusal::Shortage;

// The first room, of R, Q and S, that a record more would pass.
fn shortage(rooms: Rooms, counts: Counts, np: usize, cells: usize) -> Result<(), Shortage>
    requires { Testing counts np cells }
    ensures { code_of result ≡ short_of rooms (entry_needs counts np cells) }
{
    if rooms.r < counts.records + 1 {
        return Err(Shortage::R);
    }
    if rooms.q < counts.addresses + np {
        return Err(Shortage::Q);
    }
    if rooms.s < counts.kept + counts.used + cells {
        return Err(Shortage::S);
    }
    Ok(())
}

// Records the path in hand with the entry's destination and its state, which is kept, or with no destination, unless it is so recorded. A refusal leaves all as it was.
// The buffers stay apart: what is lent to read, or not lent at all as T, does not change by its type, which a struct of all six would have to promise.
// The code's length and the buckets' number stay two parameters: either is used by itself too (`link_parent`, `bucket_of`), so a struct of both would be opened again.
pub fn record_entry(
    w: &mut [u8],
    p: &[u8],
    s: &mut [u8],
    r: &mut [u8],
    q: &mut [u8],
    np: usize,
    rooms: Rooms,
    counts: Counts,
    size: usize,
    buckets: usize,
    entry: Entry,
) -> Result<Counts, Shortage>
    requires { Ready p.now np size buckets rooms (mem w.old r.old q.old s.old) counts entry }
    ensures { Recorded p.now np size buckets rooms (mem w.old r.old q.old s.old) counts entry.start entry.energy (new_found s.old entry)
        (mem w.new r.new q.new s.new) (reply_of counts result) }
{
    let path = PathInHand { p, np };
    let sum = path.sum();
    let lookup = PathLookup {
        w,
        path,
        r,
        q,
        size,
        buckets,
        records: counts.records,
        to: entry.to.unwrap_or(NOWHERE),
        sum,
    };
    if found(&lookup) {
        return Ok(counts);
    }
    shortage(rooms, counts, np, entry.cells)?;
    Ok(add_record(w, &path, s, r, q, rooms, counts, size, buckets, entry, sum))
}
