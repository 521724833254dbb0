// A level tries the parents of its path's last block; a parent may open a level.
// "A level tries its parents and each parent may open a level."
ghost use Rattle.std.specs.Prelude.{◌≡◌, ◌+◌, ◌<◌, ◌^◌};
ghost use Rattle.layout.specs.Buffers.{held};
ghost use Rattle.reachable.specs.Promises.{Address};
ghost use Rattle.reachable.specs.Marks.{marked_by};
ghost use Rattle.steps.specs.Cursors.{last_cursor, Asks};
ghost use Rattle.steps.specs.Goings.{under_way, gone};
ghost use Rattle.enter.specs.Lent.{StillLent};
ghost use Rattle.enter.specs.Enters.{Entering};
ghost use Rattle.levels.specs.Levels.{spent_with, Opened, Leveled, Tried};

use enter::enter::enter;
use layout::buffers::Buffers;
use lent::get16;
use reachable::{highest, is_marked};
use refusal::Shortage;
use steps::cursor::{first_cursor, last_block, next_cursor};
use steps::path::{count, uncount};
use steps::plan::Plan;
use steps::{Level, Run};

// A unit of energy.
fn spend(run: &mut Run)
    requires { run.old.energy + 1 < 2 ^ 64 }
    ensures { under_way run.new ≡ spent_with (under_way run.old) }
{
    run.energy += 1;
}

// Is the parent at `at` one "whose path's last block is then reached", when the level opened with `opened` records?
// W, R, Q and the code's length stay apart: `level` holds the buffers to write them too, so a struct of shared slices would be made for each call.
fn reached_then(w: &[u8], r: &[u8], q: &[u8], size: usize, at: usize, opened: usize) -> bool
    requires { (Asks r.now q.now at) × (Address size w.now (last_cursor r.now q.now at)) × (opened + 1 < 2 ^ 64) }
    ensures { result ≡ marked_by w.now size (last_cursor r.now q.now at) (opened + 1) }
{
    is_marked(w, size, last_block(r, q, at), opened + 1)
}

// "level function and parent function call each other; 256 less the weight is the falling number"
// A buffer that is only read beside one that is lent is bound before the call (crates/enter/src/enter.rt).
// A level: the parents of its path's last block, those that are there and reached when it opens, one after the other.
#[cycle(level_parent)]
pub fn level(
    code: &[u8],
    buffers: &mut Buffers<'_>,
    plan: &Plan,
    start: usize,
    level: Level,
    run: &mut Run,
) -> Result<(), Shortage>
    requires { Opened code.now plan.now start level (held buffers.old) (under_way run.old) }
    ensures lent { StillLent buffers.old buffers.new }
    ensures leveled { Leveled code.now plan.now start level
        (held buffers.old) (under_way run.old) (held buffers.new) (gone run.new result) }
{
    let opened = run.counts.records;
    let path = &mut *buffers.p;
    let last = get16(path, 2 * (level.np - 1));
    let rows = &mut *buffers.w;
    let top = highest(rows, plan.size, last);
    let mut at = first_cursor(rows, plan.size, last, opened, top);
    while at != 0 {
        let here = at;
        let rows = &mut *buffers.w;
        let records = &mut *buffers.r;
        let paths = &mut *buffers.q;
        at = next_cursor(rows, records, plan.size, last, opened, top, here);
        if reached_then(rows, records, paths, plan.size, here, opened) {
            spend(run);
            if plan.limit < run.energy {
                return Ok(());
            }
            parent(code, buffers, plan, start, level, here, run)?;
        }
    }
    Ok(())
}

// A parent of a level: what is done with it, and the level that it may open.
#[cycle(level_parent)]
fn parent(
    code: &[u8],
    buffers: &mut Buffers<'_>,
    plan: &Plan,
    start: usize,
    outer: Level,
    at: usize,
    run: &mut Run,
) -> Result<(), Shortage>
    requires { Entering code.now plan.now start outer at (held buffers.old) (under_way run.old) }
    ensures lent { StillLent buffers.old buffers.new }
    ensures tried { Tried code.now plan.now start outer at
        (held buffers.old) (under_way run.old) (held buffers.new) (gone run.new result) }
{
    let Some(deeper) = enter(code, buffers, plan, start, outer, at, run)? else {
        return Ok(());
    };
    let path = &mut *buffers.p;
    count(buffers.w, plan.size, path, outer.np, deeper.np);
    level(code, buffers, plan, start, deeper, run)?;
    let path = &mut *buffers.p;
    uncount(buffers.w, plan.size, path, outer.np, deeper.np);
    Ok(())
}
