// Marks, when an address was reached, and flags, whether its own sides have been followed or wait to be.
// "`HashSet` of addresses: marks in W."
// W and the code's length stay two parameters: but for `Found` of `entries`, who reads W holds it to write it too, so a struct of both would be made for each call (lib.rt).
ghost use Rattle.std.specs.Prelude.{◌≡◌};
ghost use Rattle.spec.specs.Lists.{mem};
ghost use Rattle.reachable.specs.Marks.{marked_by, flagged};
ghost use Rattle.reachable.specs.Promises.{Room, Address, Begun, Marked};

use layout::field::FLAG;
use layout::row::ROW;
use lent::{get8, get32, put32, wipe_part};

// Makes every mark and flag, and what other crates keep beside them, 0.
pub fn begin(w: &mut [u8], size: usize)
    requires { Room size w.old }
    ensures { Begun size w.old w.new }
{
    wipe_part(w, ROW * (size + 1), ROW * (size + 1));
}

// Was the address reached when there were by - 1 records?
pub fn is_marked(w: &[u8], size: usize, address: usize, by: usize) -> bool
    requires { Address size w.now address }
    ensures { result ≡ marked_by w.now size address by }
{
    let reached = get32(w, ROW * (size + 1 + address));
    if reached == 0 {
        return false;
    }
    reached <= by
}

// Have the sides of the address been followed, or do they wait to be?
// `steps::path::on_path` is alike by its length alone: it reads another field, of another width, with a law of its own, so one function for both would be no plainer.
pub fn is_flagged(w: &[u8], size: usize, address: usize) -> bool
    requires { Address size w.now address }
    ensures { result ≡ mem address (flagged w.now size) }
{
    get8(w, ROW * (size + 1 + address) + FLAG) != 0
}

// A destination found counts as reached at once: it is marked, if it has no mark.
pub fn mark(w: &mut [u8], size: usize, address: usize, when: usize)
    requires { Address size w.old address }
    ensures { Marked size w.old address when w.new }
{
    let at = ROW * (size + 1 + address);
    if get32(w, at) != 0 {
        return;
    }
    put32(w, at, when);
}
