// The walk along the log.
// "It reports, for each block, how often it was entered, how often each outgoing edge was taken"
ghost use Rattle.std.specs.Prelude.{◌≡◌, ◌+◌, ◌*◌, ◌≤◌, length};
ghost use Rattle.follow.specs.Blocks.{finals_at};
ghost use Rattle.follow.specs.Finding.{slots_of, Finds};
ghost use Rattle.follow.specs.Stepping.{Standing};
ghost use Rattle.follow.specs.Walking.{bump_at, Turned, Zeroed, Walked};

use crate::find::Finder;
use crate::step::{Move, Stand, step};
use lent::{get64, put64};

// Adds one to a count. It cannot pass 8 bytes: a log has fewer steps than its buffer has bytes.
fn bump(counts: &mut [u8], slot: usize)
    requires { 8 * slot + 8 ≤ length counts.old }
    ensures { counts.new ≡ bump_at counts.old slot }
{
    let count = get64(counts, 8 * slot);
    put64(counts, 8 * slot, count.wrapping_add(1));
}

// One step, counted: where the follower stands behind it; none where the step is not in the map.
fn count_step(
    finder: Finder,
    code: &[u8],
    counts: &mut [u8],
    stand: Option<Stand>,
    to: usize,
) -> Option<Stand>
    requires finds { Finds finder }
    requires standing { Standing finder.map.now stand }
    requires map_in_bounds { 8 * slots_of (finals_at finder.map.now 0) ≤ length counts.old }
    ensures { Turned finder.entry.map.now code.now stand to counts.old counts.new result }
{
    let taken = step(finder, code, stand, to)?;
    match taken {
        Move::Stays(at) => Some(Stand { at, pc: to }),
        Move::Begins(at) => {
            bump(counts, at.slot);
            Some(Stand { at, pc: to })
        }
        Move::Takes { edge, to: at } => {
            bump(counts, edge);
            bump(counts, at.slot);
            Some(Stand { at, pc: to })
        }
    }
}

// Follows the log from its first step; gives the place of "the first step that isn't in the map", or "the number of steps if all are".
pub fn walk(finder: Finder, code: &[u8], log: &[u8], counts: &mut [u8]) -> usize
    requires finds { Finds finder }
    requires zeroed { Zeroed finder.map.now counts.old }
    ensures { Walked finder.entry.map.now code.now log.now counts.old counts.new result }
{
    let steps = log.len() / 8;
    let mut stand = None;
    for i in 0..steps {
        let to = get64(log, 8 * i);
        let Some(next) = count_step(finder, code, counts, stand, to) else {
            return i;
        };
        stand = Some(next);
    }
    steps
}
