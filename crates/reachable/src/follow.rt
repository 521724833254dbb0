// The worklist, and what is followed from one address.
// "`HashSet` of addresses: marks in W."
// W and the code's length stay two parameters in all of these: W is lent to others in between, so a struct of both would be made anew at each call (lib.rt).
ghost use Rattle.std.specs.Prelude.{◌≡◌, [], ◌∷◌, ◌+◌, ◌*◌, ◌-◌, ◌≤◌, ◌<◌, option_to_list};
ghost use Rattle.spec.specs.Lists.{little};
ghost use Rattle.lent.specs.Bytes.{Stored};
ghost use Rattle.layout.specs.Fields.{entry_at};
ghost use Rattle.layout.specs.Parts.{entry_place};
ghost use Rattle.reachable.specs.Edges.{sides_at};
ghost use Rattle.reachable.specs.Promises.{Room, Going, GoingSide, SidesWithin, Took};

use crate::fields::mark;
use crate::sides::sides;
use layout::field::FLAG;
use layout::part::{ENTRY, LIST};
use layout::row::ROW;
use lent::{get8, get16, put8, put16};

// The last entry of the worklist.
pub fn last(w: &[u8], size: usize, count: usize) -> usize
    requires room { Room size w.now }
    requires count_nonzero { (0 < count) × (count ≤ size + 1) }
    ensures { result ≡ entry_at w.now size (count - 1) }
{
    get16(w, LIST * (size + 1) + ENTRY * (count - 1))
}

// One more entry after so many.
fn push(w: &mut [u8], size: usize, count: usize, address: usize)
    requires room { Room size w.old }
    requires count_le_size { count ≤ size }
    ensures { Stored 2 w.old (entry_place size count) (little 2 address) w.new }
{
    put16(w, LIST * (size + 1) + ENTRY * count, address);
}

// Takes `address`: an address that is not flagged is flagged and marked, and waits in the worklist, whose number of entries is the answer.
pub fn enter(w: &mut [u8], size: usize, address: usize, when: usize, count: usize) -> usize
    requires { Going size w.old address when count }
    ensures { Took size when (address ∷ []) w.old count w.new result }
{
    let at = ROW * (size + 1 + address);
    if get8(w, at + FLAG) != 0 {
        return count;
    }
    put8(w, at + FLAG, 1);
    mark(w, size, address, when);
    push(w, size, count, address);
    count + 1
}

// Takes a side, if there is one.
fn enter_side(w: &mut [u8], size: usize, side: Option<usize>, when: usize, count: usize) -> usize
    requires { GoingSide size w.old side when count }
    ensures { Took size when (option_to_list side) w.old count w.new result }
{
    match side {
        Some(to) => enter(w, size, to, when, count),
        None => count,
    }
}

// Takes the static sides of the block at `address`.
pub fn follow(w: &mut [u8], size: usize, address: usize, when: usize, count: usize) -> usize
    requires going { Going size w.old address when count }
    requires sides_within { SidesWithin w.old size }
    ensures { Took size when (sides_at w.old address) w.old count w.new result }
{
    let (to, other) = sides(w, address);
    let more = enter_side(w, size, to, when, count);
    enter_side(w, size, other, when, more)
}
