// The run of 7s, counted once, where the scan stops; in the second family of kinds 10 stands for 7.
// `wide` tells the family of the map's numbers, a fact that a result depends on: it chooses no step to run.
ghost use Rattle.std.specs.Prelude.{◌≡◌, ◌≤◌, length};
ghost use Rattle.spec.specs.Forms.{sort, wide_in};
ghost use Rattle.spec.specs.Reader.{sevens};
ghost use Rattle.reader.specs.Shapes.{from, way?, seven_at};
ghost use Rattle.reader.specs.Classes.{stopped_of};

use crate::class::Order;
use crate::kind::{Sort, sort_of, wide_in};
use crate::lead::lead_at;

// Whether a kind is a 7's in a family.
fn is_way(wide: bool, kind: usize) -> bool
    ensures { result ≡ way? (sort wide kind) }
{
    match sort_of(wide, kind) {
        Some(sort) => matches!(sort, Sort::Way),
        None => false,
    }
}

// Whether a whole 7 stands at an offset.
pub fn seven_at(map: &[u8], at: usize) -> bool
    ensures { result ≡ seven_at map.now at }
{
    match lead_at(map, at) {
        Some(lead) => is_way(wide_in(map), lead.kind),
        None => false,
    }
}

// How many whole 7s stand in the run of 7s that begins at an offset.
fn sevens(map: &[u8], at: usize) -> usize
    requires { at ≤ length map.now }
    ensures { result ≡ sevens (wide_in map.now) (from map.now at) }
{
    let wide = wide_in(map);
    let mut count = 0;
    let mut to = at;
    while let Some(lead) = lead_at(map, to) {
        if !is_way(wide, lead.kind) {
            return count;
        }
        count += 1;
        to = to + 6 + lead.length;
    }
    count
}

// The offset of the first bad entry, where the one at an offset may not come: that of an open dynamic block with "a dynamic count its 7s do not meet
// (the dynamic entry is bad; only whole 7s count)", else this one's.
#[tactic(auto, using(crate::proofs::Classing::stops_here, crate::proofs::Classing::stops_open))]
pub fn stopped(map: &[u8], at: usize, order: Order) -> usize
    requires { at ≤ length map.now }
    ensures { result ≡ stopped_of order at (sevens (wide_in map.now) (from map.now at)) }
{
    match order {
        Order::Sevens { block, left, .. } => {
            if left == sevens(map, at) {
                return at;
            }
            block
        }
        _ => at,
    }
}
