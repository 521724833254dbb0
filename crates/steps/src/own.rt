// A block's own state: it is run once, and then held in W behind the buckets in use, as long as there is room before the part for runs.
// "each block with its own stack": whenever the block is run, the stack is the same.
ghost use Rattle.std.specs.Prelude.{◌≡◌, ◌^◌, ◌<◌};
ghost use Rattle.layout.specs.Parts.{bucket_place};
ghost use Rattle.exec.specs.Owns.{Owned};
ghost use Rattle.steps.specs.Plans.{mode_in, RunsIn};
ghost use Rattle.steps.specs.Helds.{HoldAsks, HoldDone, HeldAsks, HeldIs, OwnAsks, RanNow, Gave};

use crate::plan::Plan;
use exec::mode::mode_of;
use exec::run::{Own, run};
use layout::part::{BUCKET, BUCKETS, CELL, FILLED, LINK, RUNS_MORE};
use lent::{copy_within, get16, get32, put16, put32};

// The highest link that its bytes can tell.
const LAST_LINK: usize = 0xFFFF;

// Where a state stands in W, and how many cells it has.
#[derive(Clone, Copy)]
pub struct StateAt {
    pub at: usize,
    pub n: usize,
}

// Runs the block at `start` in the plan's mode, and stores its state in W's part for runs.
fn run_block(code: &[u8], w: &mut [u8], plan: &Plan, start: usize) -> Own
    requires { RunsIn code.now w.old plan.now }
    ensures { Owned (mode_in plan.now) code.now start w.old plan.now.end w.new result }
{
    run(mode_of(plan.mode), code, start, w, plan.end)
}

// Where the links begin: behind the buckets in use.
fn links_at(plan: &Plan) -> usize
    requires { bucket_place plan.now.size plan.now.buckets < 2 ^ 64 }
    ensures { result ≡ bucket_place plan.now.size plan.now.buckets }
{
    BUCKETS * (plan.size + 1) + BUCKET * plan.buckets
}

// Holds the state of the block at `start`, which stands in so many cells from `at` on, if a link can tell where and there is room.
fn hold(w: &mut [u8], plan: &Plan, start: usize, at: usize, cells: usize)
    requires { HoldAsks plan.now w.old start at cells }
    ensures { HoldDone plan.now w.old start at cells w.new }
{
    let links = links_at(plan);
    let total = links + LINK * (plan.size + 1);
    let filled = get32(w, total);
    if LAST_LINK <= filled {
        return;
    }
    let head = total + FILLED + CELL * filled;
    if plan.end < head + CELL * (1 + cells) + CELL * (plan.size + RUNS_MORE) {
        return;
    }
    put16(w, head, cells);
    copy_within(w, at, head + CELL, CELL * cells);
    put16(w, links + LINK * start, filled + 1);
    put32(w, total, filled + 1 + cells);
}

// Where the state of the block at `start` is held, if it is.
pub fn held_state(w: &[u8], plan: &Plan, start: usize) -> Option<StateAt>
    requires { HeldAsks plan.now w.now start }
    ensures { HeldIs plan.now w.now start result }
{
    let links = links_at(plan);
    let link = get16(w, links + LINK * start);
    if link == 0 {
        return None;
    }
    let head = links + LINK * (plan.size + 1) + FILLED + CELL * (link - 1);
    Some(StateAt {
        at: head + CELL,
        n: get16(w, head),
    })
}

// Runs the block at `start`, and then holds its state.
pub fn run_state(code: &[u8], w: &mut [u8], plan: &Plan, start: usize) -> StateAt
    requires { OwnAsks plan.now code.now w.old start }
    ensures { RanNow plan.now code.now start w.old w.new result }
{
    let own = run_block(code, w, plan, start);
    hold(w, plan, start, own.at, own.n);
    StateAt {
        at: own.at,
        n: own.n,
    }
}

// The own state of the block at `start`: as it is held, or run now.
pub fn own_state(code: &[u8], w: &mut [u8], plan: &Plan, start: usize) -> StateAt
    requires { OwnAsks plan.now code.now w.old start }
    ensures { Gave plan.now code.now start w.old w.new result }
{
    match held_state(w, plan, start) {
        Some(held) => held,
        None => run_state(code, w, plan, start),
    }
}
