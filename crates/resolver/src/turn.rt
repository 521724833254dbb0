// A turn of a block that takes turns: the first level, with the block's own state.
// "A turn needs one address in P, then its state in S."
ghost use Rattle.std.specs.Prelude.{◌≡◌};
ghost use Rattle.layout.specs.Buffers.{held};
ghost use Rattle.steps.specs.Goings.{under_way, gone};
ghost use Rattle.enter.specs.Lent.{StillLent};
ghost use Rattle.resolver.specs.Turns.{begun_with, ended_with, Places, Placed, TurnAsks, Turned};

use layout::buffers::Buffers;
use lent::{copy, put16};
use levels::level;
use parents::taker::position_at;
use refusal::Shortage;
use state::cell::CELL;
use steps::own::{StateAt, own_state};
use steps::path::{count, uncount};
use steps::plan::Plan;
use steps::{Level, Run};
use tables::Counts;
use tables::met::forget;

// 256 less the weight of a path of one block.
const LEFT: usize = 255;

// The turn's first state is in use.
fn begun(run: Run, cells: usize) -> Run
    ensures { under_way result ≡ begun_with (under_way run) cells }
{
    Run {
        energy: run.energy,
        counts: Counts {
            used: cells,
            rows: 0,
            ..run.counts
        },
    }
}

// Gives the turn's first state and the remembered ones back.
fn ended(run: Run) -> Run
    ensures { under_way result ≡ ended_with (under_way run) }
{
    begun(run, 0)
}

// The turn's first level: the block's own state at the bottom of S, and its start in P, counted.
fn first_level(
    w: &mut [u8],
    p: &mut [u8],
    s: &mut [u8],
    plan: &Plan,
    start: usize,
    own: StateAt,
) -> Level
    requires { Places w.old p.old s.old plan.now start own }
    ensures { Placed w.old p.old s.old plan.now start own w.new p.new s.new result }
{
    copy(s, 0, w, own.at, CELL * own.n);
    put16(p, 0, start);
    count(w, plan.size, p, 0, 1);
    Level {
        np: 1,
        position: position_at(w, start),
        from: 0,
        cells: own.n,
        left: LEFT,
    }
}

// The turn of the block at `start`: "A turn needs one address in P, then its state in S."
pub fn turn(
    code: &[u8],
    buffers: &mut Buffers<'_>,
    plan: &Plan,
    start: usize,
    run: &mut Run,
) -> Result<(), Shortage>
    requires { TurnAsks code.now plan.now start (held buffers.old) (under_way run.old) }
    ensures lent { StillLent buffers.old buffers.new }
    ensures turned { Turned code.now plan.now start
        (held buffers.old) (under_way run.old) (held buffers.new) (gone run.new result) }
{
    if plan.rooms.p == 0 {
        return Err(Shortage::P);
    }
    let own = own_state(code, buffers.w, plan, start);
    if plan.rooms.s < run.counts.kept + own.n {
        return Err(Shortage::S);
    }
    let first = first_level(buffers.w, buffers.p, buffers.s, plan, start, own);
    *run = begun(*run, own.n);
    level(code, buffers, plan, start, first, run)?;
    let path = &mut *buffers.p;
    uncount(buffers.w, plan.size, path, 0, 1);
    forget(buffers.t, plan.shelves, run.counts.rows);
    *run = ended(*run);
    Ok(())
}
