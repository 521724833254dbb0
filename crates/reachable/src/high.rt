// The highest direct parent of each address that is marked, as a link: no direct parent past it is.
// "for every static side (equal sides once), of a DynamicJumpi the false side only."
// W and the code's length stay two parameters, in `highest` too: who reads W holds it to write it too, so a struct of both would be made for each call (lib.rt).
ghost use Rattle.std.specs.Prelude.{◌≡◌, [], ◌∷◌, ◌≤◌, option_to_list};
ghost use Rattle.layout.specs.Fields.{high_at};
ghost use Rattle.reachable.specs.Edges.{sides_at};
ghost use Rattle.reachable.specs.Promises.{Room, Address, SideWithin, SidesWithin, Raised};

use crate::sides::sides;
use layout::field::HIGHEST;
use layout::row::ROW;
use lent::{get16, put16};

// The highest direct parent of `address` that is marked.
pub fn highest(w: &[u8], size: usize, address: usize) -> usize
    requires { Address size w.now address }
    ensures { result ≡ high_at w.now size address }
{
    get16(w, ROW * (size + 1 + address) + HIGHEST)
}

// Raises that of `to` to `start`.
fn raise(w: &mut [u8], size: usize, to: usize, start: usize)
    requires address { Address size w.old to }
    requires start_le_size { start ≤ size }
    ensures { Raised size (to ∷ []) w.old start w.new }
{
    let at = ROW * (size + 1 + to) + HIGHEST;
    if start < get16(w, at) {
        return;
    }
    put16(w, at, start + 1);
}

// Raises that of a side, if there is one.
fn raise_side(w: &mut [u8], size: usize, side: Option<usize>, start: usize)
    requires room { Room size w.old }
    requires side_within { SideWithin size side }
    requires start_le_size { start ≤ size }
    ensures { Raised size (option_to_list side) w.old start w.new }
{
    if let Some(to) = side {
        raise(w, size, to, start);
    }
}

// Raises that of each static side of the block at `start`, which got its mark.
pub fn raise_sides(w: &mut [u8], size: usize, start: usize)
    requires address { Address size w.old start }
    requires sides_within { SidesWithin w.old size }
    ensures { Raised size (sides_at w.old start) w.old start w.new }
{
    let (to, other) = sides(w, start);
    raise_side(w, size, to, start);
    raise_side(w, size, other, start);
}
