// What is done with a parent of a level, up to the level that it may open.
// "Per parent, in this order: ... A one-block parent already on the path is skipped. ... The path grows (room P). ... It is remembered (room T)."
ghost use Rattle.std.specs.Prelude.{◌≡◌, ◌*◌, ◌≤◌, length};
ghost use Rattle.layout.specs.Buffers.{held};
ghost use Rattle.state.specs.Symbols.{sym_of};
ghost use Rattle.tables.specs.Tables.{no_entry};
ghost use Rattle.steps.specs.Goings.{under_way, gone};
ghost use Rattle.steps.specs.Lands.{Lands};
ghost use Rattle.steps.specs.Runs.{tabled};
ghost use Rattle.enter.specs.Lent.{StillLent, SamePath};
ghost use Rattle.enter.specs.Enters.{open_at, opening_of, SkipAsks, skips, entry_of, Landed, Arriving, Arrived, Entering, Entered, Saw, Following, Followed};

use layout::buffers::Buffers;
use lent::get16;
use parents::link::parent_start;
use refusal::Shortage;
use state::sym::StackSym;
use steps::cursor::FOUND;
use steps::land::land;
use steps::meet::meet;
use steps::path::{grow, on_path};
use steps::plan::Plan;
use steps::state_of::{Taken, take_state};
use steps::{Level, Run};
use tables::Entry;
use tables::row::Seen;

// The level that opens behind the grown path of np addresses, with the state that was seen.
fn opened(np: usize, position: usize, seen: Seen, level: Level) -> Level
    requires { level.left ≡ 0 → ⊥ }
    ensures { result ≡ open_at np position seen level }
{
    Level {
        np,
        position,
        from: seen.from,
        cells: seen.cells,
        left: level.left - 1,
    }
}

// Whether the parent at `at` has one block, and that is on the path already.
// W and the code's length stay two parameters: `enter` holds W to write it too, so a struct of shared slices would be made for each call.
fn skipped(w: &[u8], size: usize, at: usize) -> bool
    requires { SkipAsks size w.now at }
    ensures { result ≡ skips w.now size at }
{
    if FOUND <= at {
        return false;
    }
    on_path(w, size, parent_start(at))
}

// The entry of a path that leads nowhere.
fn no_entry(start: usize, energy: usize) -> Entry
    ensures { result ≡ no_entry start energy }
{
    Entry {
        start,
        to: None,
        from: 0,
        cells: 0,
        energy,
    }
}

// What is recorded of the path that ends here: a Jumpdest is where it leads, with the state that was seen, and anything else leads nowhere.
fn entry_of(start: usize, seen: Seen, spent: usize) -> Entry
    ensures { result ≡ entry_of start seen spent (sym_of seen.symbol) }
{
    let symbol = seen.symbol;
    let StackSym::Jumpdest(to) = symbol else {
        return no_entry(start, spent);
    };
    Entry {
        start,
        to: Some(to),
        from: seen.from,
        cells: seen.cells,
        energy: spent,
    }
}

// The path has ended: it is recorded.
fn landed(
    buffers: &mut Buffers<'_>,
    np: usize,
    plan: &Plan,
    entry: Entry,
    run: &mut Run,
) -> Result<(), Shortage>
    requires { Lands buffers.old.p.now np plan.now (tabled (held buffers.old)) run.old.counts entry }
    ensures lent { StillLent buffers.old buffers.new }
    ensures same { SamePath buffers.old buffers.new }
    ensures landed { Landed buffers.old.p.now np plan.now (tabled (held buffers.old)) entry
        (under_way run.old) (tabled (held buffers.new)) (gone run.new result) }
{
    let path = &mut *buffers.p;
    run.counts = land(
        buffers.w, path, buffers.s, buffers.r, buffers.q, np, plan, run.counts, entry,
    )?;
    Ok(())
}

// Step 6: a Before opens a level, a Jumpdest is where the path leads, and anything else leads nowhere.
fn arrive(
    buffers: &mut Buffers<'_>,
    np: usize,
    plan: &Plan,
    start: usize,
    level: Level,
    seen: Seen,
    run: &mut Run,
) -> Result<Option<Level>, Shortage>
    requires { Arriving buffers.old.p.now np plan.now (tabled (held buffers.old)) start level seen (under_way run.old) }
    ensures lent { StillLent buffers.old buffers.new }
    ensures same { SamePath buffers.old buffers.new }
    ensures arrived { Arrived buffers.old.p.now np plan.now (tabled (held buffers.old)) start level seen
        (under_way run.old) (tabled (held buffers.new)) (opening_of run.new level result) }
{
    let symbol = seen.symbol;
    if let StackSym::Before(position) = symbol {
        return Ok(Some(opened(np, position, seen, level)));
    }
    let entry = entry_of(start, seen, run.energy);
    landed(buffers, np, plan, entry, run)?;
    Ok(None)
}

// What is seen at the end of the path of np addresses: its last address, the symbol and the state taken, which stands after `used` cells.
// P and np stay two parameters: the path is a part of a lent room (no heap, fixed memory), and a struct of both would be made for this one read.
fn seen(p: &[u8], np: usize, taken: Taken, used: usize) -> Seen
    requires { (1 ≤ np) × (2 * np ≤ length p.now) }
    ensures { Saw p.now np taken used result }
{
    let symbol = taken.symbol;
    Seen {
        last: get16(p, 2 * (np - 1)),
        symbol,
        from: used,
        cells: taken.cells,
    }
}

// A buffer that is only read beside one that is lent to be changed is bound before: the borrow checker has no rule for reading it through `buffers` then.
// Steps 4 to 6, with the parent's path behind the level's: the symbol and the new state, which was met or is remembered, and where the symbol leads.
fn follow(
    code: &[u8],
    buffers: &mut Buffers<'_>,
    plan: &Plan,
    start: usize,
    level: Level,
    at: usize,
    np: usize,
    run: &mut Run,
) -> Result<Option<Level>, Shortage>
    requires { Following code.now plan.now start level at np (held buffers.old) (under_way run.old) }
    ensures lent { StillLent buffers.old buffers.new }
    ensures followed { Followed code.now plan.now start level at np
        (held buffers.old) (under_way run.old) (held buffers.new) (opening_of run.new level result) }
{
    let counts = run.counts;
    let records = &mut *buffers.r;
    let taken = take_state(code, buffers.w, buffers.s, records, plan, counts, level, at)?;
    let path = &mut *buffers.p;
    let seen = seen(path, np, taken, counts.used);
    let states = &mut *buffers.s;
    let Some(more) = meet(states, buffers.t, plan, counts, seen)? else {
        return Ok(None);
    };
    run.counts = more;
    arrive(buffers, np, plan, start, level, seen, run)
}

// Steps 2 to 6 of the parent at `at`, but for the level that it may open.
pub fn enter(
    code: &[u8],
    buffers: &mut Buffers<'_>,
    plan: &Plan,
    start: usize,
    level: Level,
    at: usize,
    run: &mut Run,
) -> Result<Option<Level>, Shortage>
    requires { Entering code.now plan.now start level at (held buffers.old) (under_way run.old) }
    ensures lent { StillLent buffers.old buffers.new }
    ensures entered { Entered code.now plan.now start level at
        (held buffers.old) (under_way run.old) (held buffers.new) (opening_of run.new level result) }
{
    let rows = &mut *buffers.w;
    if skipped(rows, plan.size, at) {
        return Ok(None);
    }
    let records = &mut *buffers.r;
    let paths = &mut *buffers.q;
    let np = grow(buffers.p, records, paths, plan.rooms.p, level.np, at)?;
    if level.left == 0 {
        let entry = no_entry(start, run.energy);
        landed(buffers, np, plan, entry, run)?;
        return Ok(None);
    }
    follow(code, buffers, plan, start, level, at, np, run)
}
