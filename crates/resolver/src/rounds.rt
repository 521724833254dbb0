// The search: rounds of turns, from what is reached by the code's static sides alone.
// "A round with no record is the last, and no round or turn starts once the limit is reached."
ghost use Rattle.std.specs.Prelude.{◌≡◌, ◌≤◌};
ghost use Rattle.spec.specs.Rooms.{longest};
ghost use Rattle.layout.specs.Buffers.{held};
ghost use Rattle.steps.specs.Goings.{under_way, gone};
ghost use Rattle.enter.specs.Lent.{StillLent};
ghost use Rattle.resolver.specs.Turns.{Between, Rounds, SearchAsks, Searched, rooms_of, buckets_for, plan_of, begun_run, outcome_of};

use crate::round::round;
use crate::settle::hand_all;
use exec::mode::Mode;
use layout::buffers::Buffers;
use layout::part::{BUCKET, BUCKETS, FILLED, LINK, SHARE, SHARE_MORE, STARTS, STARTS_MORE};
use lent::{units, wipe_part};
use reachable::reach;
use refusal::Shortage;
use steps::Run;
use steps::plan::Plan;
use tables::met::begin_rows;
use tables::{Counts, Rooms};

// How many rounds there are at most.
const ROUNDS: usize = 128;

// How many buckets T has at most.
const MOST_SHELVES: usize = 0x1_0000;

// "A round with no record is the last, and no round or turn starts once the limit is reached."
fn rounds(
    code: &[u8],
    buffers: &mut Buffers<'_>,
    plan: &Plan,
    run: &mut Run,
) -> Result<(), Shortage>
    requires { Between code.now plan.now 0 (held buffers.old) (under_way run.old) }
    ensures lent { StillLent buffers.old buffers.new }
    ensures rounds { Rounds code.now plan.now
        (held buffers.old) (under_way run.old) (held buffers.new) (gone run.new result) }
{
    let mut since = 0;
    for _done in 0..ROUNDS {
        if plan.limit <= run.energy {
            return Ok(());
        }
        let records = run.counts.records;
        let rows = &mut *buffers.r;
        hand_all(buffers.w, plan.size, rows, since, records);
        round(code, buffers, plan, run)?;
        if run.counts.records == records {
            return Ok(());
        }
        since = records;
    }
    Ok(())
}

// How many units of each buffer count as lent.
fn rooms_of(buffers: &Buffers<'_>) -> Rooms
    ensures { let lent = held buffers.now in result ≡ rooms_of lent.p lent.s lent.t lent.r lent.q }
{
    Rooms {
        p: units(buffers.p.len(), 2),
        s: units(buffers.s.len(), 9),
        t: units(buffers.t.len(), 32),
        r: units(buffers.r.len(), 32),
        q: units(buffers.q.len(), 2),
    }
}

// How many buckets the records have: a search whose R is small wipes few of them, and finds them close together.
fn buckets_of(size: usize, rows: usize) -> usize
    requires { size ≤ longest }
    ensures { result ≡ buckets_for size rows }
{
    let most = (SHARE * size + SHARE_MORE) / BUCKET;
    if most <= rows {
        return most;
    }
    rows + 1
}

// The plan of a search, in a mode, over a code of `size` bytes. T has a bucket for each of its rows, up to `MOST_SHELVES`.
fn plan_of(mode: Mode, size: usize, limit: usize, many: usize, rooms: Rooms) -> Plan
    requires { size ≤ longest }
    ensures { result ≡ plan_of mode size limit many rooms }
{
    let buckets = buckets_of(size, rooms.r);
    let shelves = rooms.t.min(MOST_SHELVES);
    Plan {
        size,
        end: STARTS * size + STARTS_MORE,
        takers: many,
        buckets,
        shelves,
        limit,
        rooms,
        mode: mode.into(),
    }
}

// The search, in a mode, over the rows that `prepare` leaves in W, `many` of whose blocks take turns.
pub fn search(
    mode: Mode,
    code: &[u8],
    buffers: &mut Buffers<'_>,
    limit: usize,
    many: usize,
) -> Result<Run, Shortage>
    requires { SearchAsks mode code.now buffers.old.w.now limit many }
    ensures lent { StillLent buffers.old buffers.new }
    ensures searched { Searched mode code.now limit many (held buffers.old) (held buffers.new) (outcome_of result) }
{
    let size = code.len();
    let plan = plan_of(mode, size, limit, many, rooms_of(buffers));
    reach(buffers.w, size);
    // The buckets, and behind them the links of the own states and how many cells are in use: none is held yet.
    let behind = BUCKET * plan.buckets + LINK * (size + 1) + FILLED;
    wipe_part(buffers.w, BUCKETS * (size + 1), behind);
    begin_rows(buffers.t, plan.shelves);
    let mut run = begin();
    rounds(code, buffers, &plan, &mut run)?;
    Ok(run)
}

// Nothing is recorded, no energy used, nothing in use: each count by its name, as the definition has it, where a derived default would need a derive in two crates more.
fn begin() -> Run
    ensures { under_way result ≡ begun_run }
{
    let counts = Counts {
        records: 0,
        addresses: 0,
        kept: 0,
        used: 0,
        rows: 0,
    };
    Run { energy: 0, counts }
}
