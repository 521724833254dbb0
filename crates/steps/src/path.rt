// The path in hand, in P: growing it by a parent's path, and how often each address is on it, in W.
// "A one-block parent already on the path is skipped. ... The path grows (room P)."
// W and the code's length stay two parameters in `on_path`, `count` and `uncount`: W is lent to others in between, so a struct of both would be made anew at each call.
ghost use Rattle.std.specs.Prelude.{◌≡◌, not, eqb};
ghost use Rattle.layout.specs.Fields.{count_at};
ghost use Rattle.reachable.specs.Promises.{Address};
ghost use Rattle.steps.specs.Cursors.{path_cursor};
ghost use Rattle.steps.specs.Paths.{Growing, Grown, Counting, Counted, Uncounting};

use crate::cursor::FOUND;
use layout::field::COUNT;
use layout::record::{ENDS, RECORD};
use layout::row::ROW;
use lent::{copy, get16, get32, put16, put32};
use parents::link::parent_start;
use refusal::Shortage;
use tables::end_before;

// Puts the path of the parent at `at` behind the np addresses in hand; gives how many there are then.
// P and np stay two parameters: the path is a part of a lent room, which it grows into (no heap, fixed memory).
pub fn grow(
    p: &mut [u8],
    r: &[u8],
    q: &[u8],
    room: usize,
    np: usize,
    at: usize,
) -> Result<usize, Shortage>
    requires { Growing p.old r.now q.now room np at }
    ensures { Grown p.old np room (path_cursor r.now q.now at) p.new result }
{
    if at < FOUND {
        if room < np + 1 {
            return Err(Shortage::P);
        }
        put16(p, 2 * np, parent_start(at));
        return Ok(np + 1);
    }
    let from = end_before(r, at - FOUND);
    let len = get32(r, RECORD * (at - FOUND) + ENDS) - from;
    if room < np + len {
        return Err(Shortage::P);
    }
    copy(p, 2 * np, q, 2 * from, 2 * len);
    Ok(np + len)
}

// Whether an address is on the path in hand.
// `reachable::is_flagged` is alike by its length alone: it reads another field, of another width, with a law of its own, so one function for both would be no plainer.
pub fn on_path(w: &[u8], size: usize, address: usize) -> bool
    requires { Address size w.now address }
    ensures { result ≡ not (eqb (count_at w.now size address) 0) }
{
    get32(w, ROW * (size + 1 + address) + COUNT) != 0
}

// Counts the addresses of the path from `from` to `to`.
pub fn count(w: &mut [u8], size: usize, p: &[u8], from: usize, to: usize)
    requires { Counting size w.old p.now from to }
    ensures { Counted size w.old p.now to w.new }
{
    for i in from..to {
        let at = ROW * (size + 1 + get16(p, 2 * i)) + COUNT;
        put32(w, at, get32(w, at) + 1);
    }
}

// Takes the addresses of the path from `from` to `to` off the counts.
pub fn uncount(w: &mut [u8], size: usize, p: &[u8], from: usize, to: usize)
    requires { Uncounting size w.old p.now from to }
    ensures { Counted size w.old p.now from w.new }
{
    for i in (from..to).rev() {
        let at = ROW * (size + 1 + get16(p, 2 * i)) + COUNT;
        put32(w, at, get32(w, at) - 1);
    }
}
