// What a path ends in: it is recorded, and where it leads counts as reached at once.
// "A destination found counts as reached for parents at once"
ghost use Rattle.tables.specs.Replies.{reply_of};
ghost use Rattle.tables.specs.Tables.{mem, new_found};
ghost use Rattle.reachable.specs.Promises.{Address, SidesWithin};
ghost use Rattle.steps.specs.Lands.{FoundMarked, Lands, Noted};

use crate::plan::Plan;
use reachable::{mark, raise_sides};
use refusal::Shortage;
use tables::{Counts, Entry, record_entry};

// Marks a destination found and raises its sides, so that a level which opens from now on finds it among their parents.
// W and the code's length stay two parameters: `land` lends W to `record_entry` before, so a struct of both would be made for this one call.
fn mark_found(w: &mut [u8], size: usize, to: usize, when: usize)
    requires address { Address size w.old to }
    requires sides_within { SidesWithin w.old size }
    ensures { FoundMarked size w.old to when w.new }
{
    mark(w, size, to, when);
    raise_sides(w, size, to);
}

// Records the path of np addresses with the entry's destination and its state, or with none, unless it is so recorded, and marks a new destination. A refusal leaves all as it was.
// The buffers stay apart, as `record_entry` takes them: no function of this crate uses all six.
pub fn land(
    w: &mut [u8],
    p: &[u8],
    s: &mut [u8],
    r: &mut [u8],
    q: &mut [u8],
    np: usize,
    plan: &Plan,
    counts: Counts,
    entry: Entry,
) -> Result<Counts, Shortage>
    requires { Lands p.now np plan.now (mem w.old r.old q.old s.old) counts entry }
    ensures { Noted p.now np plan.now (mem w.old r.old q.old s.old) counts entry.start entry.energy (new_found s.old entry)
        (mem w.new r.new q.new s.new) (reply_of counts result) }
{
    let after = record_entry(
        w,
        p,
        s,
        r,
        q,
        np,
        plan.rooms,
        counts,
        plan.size,
        plan.buckets,
        entry,
    )?;
    let Some(to) = entry.to else {
        return Ok(after);
    };
    if after.records != counts.records {
        mark_found(w, plan.size, to, counts.records + 2);
    }
    Ok(after)
}
