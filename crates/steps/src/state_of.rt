// A parent's state: the symbol that it has at a position, and its state behind the level's.
// "The parent's symbol at the level's position is read, and the new state, the path's state composed with the parent's, is formed (room S)."
ghost use Rattle.std.specs.Prelude.{◌≡◌, ◌*◌, ◌≤◌, ◌<◌, length};
ghost use Rattle.layout.specs.Records.{record_place, kept_of};
ghost use Rattle.steps.specs.Cursors.{stack_cursor};
ghost use Rattle.steps.specs.States.{Composing, Took};
ghost use Rattle.steps.specs.Plans.{mode_in};

use crate::Level;
use crate::cursor::FOUND;
use crate::own::own_state;
use crate::plan::Plan;
use layout::record::{KEPT, RECORD};
use lent::get32;
use parents::link::parent_start;
use refusal::Shortage;
use state::cell::CELL;
use state::compose::{compose_kept, compose_own, composed_len};
use state::read::{base_at, symbol_at};
use state::sym::StackSym;
use tables::Counts;

// How many cells the new state has, right after those in use, and the symbol.
#[derive(Clone, Copy)]
pub struct Taken {
    pub cells: usize,
    pub symbol: StackSym,
}

// Why a state was not taken: the room that is short, and what would have been taken.
#[derive(Clone, Copy)]
pub struct Untaken {
    pub short: Shortage,
    pub taken: Taken,
}

impl From<Untaken> for Shortage {
    ghost use Rattle.std.specs.Prelude.{◌≡◌};

    ghost from_gives = { λ untaken short. short ≡ untaken.short };

    fn from(untaken: Untaken) -> Shortage {
        untaken.short
    }
}

// Takes the own state of a direct parent, which stands in W. `take_found` stays a function of its own, which is plainer: what the two share is `state`'s composing, and each
// finds the state by numbers of its own and lends it from another buffer.
fn take_direct(
    code: &[u8],
    w: &mut [u8],
    s: &mut [u8],
    r: &[u8],
    plan: &Plan,
    counts: Counts,
    level: Level,
    at: usize,
) -> Result<Taken, Untaken>
    requires composing { Composing code.now w.old s.old r.now plan.now counts level at }
    requires at_bound { at < 0x10000 }
    ensures { Took code.now w.old s.old plan.now counts level (stack_cursor (mode_in plan.now) code.now r.now s.old plan.now.rooms.s at)
        w.new s.new result }
{
    let start = parent_start(at);
    let own = own_state(code, w, plan, start);
    let symbol = symbol_at(w, own.at, own.n, level.position);
    let cells = composed_len(
        level.cells,
        base_at(s, CELL * level.from, level.cells),
        own.n,
    );
    let room = plan.rooms.s;
    if room < counts.kept + counts.used + cells {
        return Err(Untaken {
            short: Shortage::S,
            taken: Taken { cells, symbol },
        });
    }
    let made = compose_own(
        w,
        s,
        CELL * level.from,
        level.cells,
        CELL * counts.used,
        own.at,
        own.n,
    );
    Ok(Taken {
        cells: made,
        symbol,
    })
}

// Takes the state that is kept for a found parent, in S.
fn take_found(
    code: &[u8],
    w: &mut [u8],
    s: &mut [u8],
    r: &[u8],
    plan: &Plan,
    counts: Counts,
    level: Level,
    at: usize,
) -> Result<Taken, Untaken>
    requires composing { Composing code.now w.old s.old r.now plan.now counts level at }
    requires le_at { 0x10000 ≤ at }
    ensures { Took code.now w.old s.old plan.now counts level (stack_cursor (mode_in plan.now) code.now r.now s.old plan.now.rooms.s at)
        w.new s.new result }
{
    let room = plan.rooms.s;
    let kept = get32(r, RECORD * (at - FOUND) + KEPT);
    let theirs = kept - kept_before(r, at - FOUND);
    let from = CELL * (room - kept);
    let symbol = symbol_at(s, from, theirs, level.position);
    let cells = composed_len(
        level.cells,
        base_at(s, CELL * level.from, level.cells),
        theirs,
    );
    if room < counts.kept + counts.used + cells {
        return Err(Untaken {
            short: Shortage::S,
            taken: Taken { cells, symbol },
        });
    }
    let made = compose_kept(
        s,
        CELL * level.from,
        level.cells,
        CELL * counts.used,
        from,
        theirs,
    );
    Ok(Taken {
        cells: made,
        symbol,
    })
}

// The kept cells of the records before a record. `tables::end_before` is alike, and no plainer with a field's place as its argument: each has its own bound and law.
fn kept_before(r: &[u8], row: usize) -> usize
    requires { record_place row ≤ length r.now }
    ensures { result ≡ kept_of r.now row }
{
    if row == 0 {
        return 0;
    }
    get32(r, RECORD * (row - 1) + KEPT)
}

// Reads the symbol of the parent at `at` that the level asks for, and composes the level's state with the parent's, right after the cells in use.
// The buffers stay apart, as in `take_direct` and `take_found`: P, Q and T are not lent, so they stay as they are by that alone. Plan, counts and level are structs already.
pub fn take_state(
    code: &[u8],
    w: &mut [u8],
    s: &mut [u8],
    r: &[u8],
    plan: &Plan,
    counts: Counts,
    level: Level,
    at: usize,
) -> Result<Taken, Untaken>
    requires { Composing code.now w.old s.old r.now plan.now counts level at }
    ensures { Took code.now w.old s.old plan.now counts level (stack_cursor (mode_in plan.now) code.now r.now s.old plan.now.rooms.s at)
        w.new s.new result }
{
    if at < FOUND {
        return take_direct(code, w, s, r, plan, counts, level, at);
    }
    take_found(code, w, s, r, plan, counts, level, at)
}
