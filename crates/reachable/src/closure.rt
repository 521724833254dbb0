// The closure of what is reached under static sides.
// "A destination found counts as reached for parents at once; the rest of the reached set grows when the round ends."
// W and the code's length stay two parameters in all three: W is lent to others in between, so a struct of both would be made anew at each call (lib.rt).
ghost use Rattle.reachable.specs.Promises.{Room, SidesWithin, Took, Expands, Expanded, Reaches};

use crate::fields::begin;
use crate::follow::{enter, follow, last};
use crate::high::raise_sides;

// Takes the seeds: those that are not flagged wait in the worklist, whose number of entries is the answer.
fn enter_all(w: &mut [u8], size: usize, seeds: &[usize], when: usize) -> usize
    requires { Expands size w.old seeds.now when }
    ensures { Took size when seeds.now w.old 0 w.new result }
{
    let mut count = 0;
    for seed in seeds {
        count = enter(w, size, *seed, when, count);
    }
    count
}

// Follows the static sides from the seeds: what is reached from them is flagged, and marked where it has no mark; the highest parents follow.
pub fn expand(w: &mut [u8], size: usize, seeds: &[usize], when: usize)
    requires { Expands size w.old seeds.now when }
    ensures { Expanded size w.old seeds.now when w.new }
{
    let mut count = enter_all(w, size, seeds, when);
    while count != 0 {
        let address = last(w, size, count);
        raise_sides(w, size, address);
        count = follow(w, size, address, when, count - 1);
    }
}

// What is reached at the start of the search.
pub fn reach(w: &mut [u8], size: usize)
    requires room { Room size w.old }
    requires sides_within { SidesWithin w.old size }
    ensures { Reaches size w.old w.new }
{
    begin(w, size);
    let first = [0; 1];
    expand(w, size, &first, 1);
}
