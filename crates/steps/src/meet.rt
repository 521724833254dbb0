// What was met in a turn: it is met again, or remembered.
// "If last block, state and symbol were met in this turn, its cells are given back; next. ... It is remembered (room T)."
ghost use Rattle.steps.specs.Meets.{Meets, Met, meeting_of};

use crate::plan::Plan;
use refusal::Shortage;
use tables::Counts;
use tables::met::remember;
use tables::row::{Seen, find_row, stamp_of};

// Looks up what is seen, right after the cells in use, and remembers it if it is new: the counts then, or none where it was met before.
pub fn meet(
    s: &[u8],
    t: &mut [u8],
    plan: &Plan,
    counts: Counts,
    seen: Seen,
) -> Result<Option<Counts>, Shortage>
    requires { Meets t.old s.now plan.now counts seen }
    ensures { Met t.old s.now plan.now counts seen t.new (meeting_of counts result) }
{
    if plan.rooms.t == 0 {
        return Err(Shortage::T);
    }
    let sum = stamp_of(s, seen);
    if find_row(s, t, plan.shelves, counts.rows, seen, sum) {
        return Ok(None);
    }
    let after = remember(s, t, plan.rooms, counts, plan.shelves, seen, sum)?;
    Ok(Some(after))
}
