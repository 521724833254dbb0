// A destination's place among a block's distinct ones.
// "one a distinct outgoing destination of it"
ghost use Rattle.std.specs.Prelude.{◌≡◌, not, length, take};
ghost use Rattle.spec.specs.Lists.{mem};
ghost use Rattle.spec.specs.Counting.{distinct};
ghost use Rattle.std.specs.Iterator.{YieldsFirst, item_count};
ghost use Rattle.reader.specs.Walks.{Walking};
ghost use Rattle.follow.specs.Blocks.{named_by};
ghost use Rattle.follow.specs.Places.{place_in, CanChoose, distinct_left};

use crate::block::Named;
use crate::destination::{Destinations, Lead, dest_of};

// Whether `asked` is none of the first `count` destinations.
fn fresh(map: &[u8], named: Named, count: usize, asked: usize) -> bool
    requires { Walking map.now named.at }
    ensures { result ≡ not (mem asked (take count (named_by map.now named))) }
{
    (Destinations { map, named })
        .take(count)
        .all(|to| to != asked)
}

// A block's distinct destinations: each where it is named first. So many are passed, and the others are left.
#[derive(Clone, Copy)]
pub struct Distinct<'a> {
    pub map: &'a [u8],
    pub named: Named,
    pub passed: usize,
    pub rest: Named,
}

impl<'a> Distinct<'a> {
    ghost use Rattle.follow.specs.Places.{none_passed};

    // All of them.
    pub fn new(map: &'a [u8], named: Named) -> Distinct<'a>
        ensures { result ≡ none_passed map.entry named }
    {
        Distinct {
            map,
            named,
            passed: 0,
            rest: named,
        }
    }
}

impl<'a> Iterator for Distinct<'a> {
    type Item = usize;

    ghost can_next = { CanChoose };

    ghost next_gives = { YieldsFirst distinct_left };

    ghost remaining = { item_count distinct_left };

    fn next(&mut self) -> Option<usize> {
        while let Some(Lead { to, rest }) = dest_of(self.map, self.rest) {
            let new = fresh(self.map, self.named, self.passed, to);
            self.passed += 1;
            self.rest = rest;
            if new {
                return Some(to);
            }
        }
        None
    }
}

// The place of one among them.
pub fn seek(map: &[u8], named: Named, asked: usize) -> Option<usize>
    requires { Walking map.now named.at }
    ensures { place_in asked (distinct (named_by map.now named)) result }
{
    Distinct::new(map, named).position(|to| to == asked)
}

// How many they are.
pub fn many(map: &[u8], named: Named) -> usize
    requires { Walking map.now named.at }
    ensures { result ≡ length (distinct (named_by map.now named)) }
{
    Distinct::new(map, named).count()
}
