// A block's destinations, one after the other: its static sides, then those of its 7s, "missing ones left out, in the answer's order".
ghost use Rattle.std.specs.Prelude.{◌≡◌};
ghost use Rattle.std.specs.Iterator.{YieldsFirst, item_count};
ghost use Rattle.reader.specs.Walks.{Walking};
ghost use Rattle.follow.specs.Blocks.{way_of, next_seven, next_dest, CanLead, named_left};

use crate::block::{Named, Sides};
use reader::{Entry, Fault, Step, next};

// A destination of the 7s, and the offset behind it.
#[derive(Clone, Copy)]
pub struct Seven {
    pub to: usize,
    pub behind: usize,
}

// A destination, and the others behind it.
#[derive(Clone, Copy)]
pub struct Lead {
    pub to: usize,
    pub rest: Named,
}

// Where a 7 leads, if it does; none where the entry is no 7.
fn way_of(entry: Result<Entry, Fault>) -> Option<Option<usize>>
    ensures { result ≡ way_of entry }
{
    match entry {
        Ok(Entry::Way { to, .. }) => Some(to),
        _ => None,
    }
}

// The first destination of the 7s that come first from an offset on.
fn seven_from(map: &[u8], from: usize) -> Option<Seven>
    requires { Walking map.now from }
    ensures { next_seven map.now from result }
{
    let mut at = from;
    while let Some(Step { entry, behind }) = next(map, at) {
        match way_of(entry)? {
            Some(to) => return Some(Seven { to, behind }),
            None => at = behind,
        }
    }
    None
}

// The first of the destinations that are left.
pub fn dest_of(map: &[u8], named: Named) -> Option<Lead>
    requires { Walking map.now named.at }
    ensures { next_dest map.now named result }
{
    let at = named.at;
    match named.sides {
        Sides::Two(to, second) => {
            let rest = Named {
                sides: Sides::One(second),
                at,
            };
            Some(Lead { to, rest })
        }
        Sides::One(to) => {
            let rest = Named {
                sides: Sides::Zero,
                at,
            };
            Some(Lead { to, rest })
        }
        Sides::Zero => {
            let Seven { to, behind } = seven_from(map, at)?;
            let rest = Named {
                sides: Sides::Zero,
                at: behind,
            };
            Some(Lead { to, rest })
        }
    }
}

// A block's destinations, as many times as they are named.
#[derive(Clone, Copy)]
pub struct Destinations<'a> {
    pub map: &'a [u8],
    pub named: Named,
}

impl<'a> Iterator for Destinations<'a> {
    type Item = usize;

    ghost can_next = { CanLead };

    ghost next_gives = { YieldsFirst named_left };

    ghost remaining = { item_count named_left };

    fn next(&mut self) -> Option<usize> {
        let Lead { to, rest } = dest_of(self.map, self.named)?;
        self.named = rest;
        Some(to)
    }
}
