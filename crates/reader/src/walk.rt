// The walk over an accepted map, an entry a step: first(map), then next(map, behind) with what each step gives. These are that map's entries, in order
// (`begun`, `stepping`, `ended` in proofs/Walked).
// "Archived maps have to be loaded again for old releases."
ghost use Rattle.std.specs.Prelude.{◌≡◌, ◌+◌, ◌*◌, ◌≤◌, ◌<◌, length};
ghost use Rattle.reader.specs.Walks.{walk_at, Address};

use crate::entry::{Entry, Fault, entry_at};
use crate::lead::end_of;
use lent::get16;

// The entry at the walk's offset, and the offset behind it. Of accepted bytes no entry has a fault.
#[derive(Clone, Copy)]
pub struct Step {
    pub entry: Result<Entry, Fault>,
    pub behind: usize,
}

// The walk's step at an offset; none where the bytes are over.
pub fn next(map: &[u8], at: usize) -> Option<Step>
    ensures { result ≡ walk_at map.now at }
{
    if map.len() <= at {
        return None;
    }
    let entry = entry_at(map, at);
    let behind = end_of(map, at);
    Some(Step { entry, behind })
}

// Its first step.
pub fn first(map: &[u8]) -> Option<Step>
    ensures { result ≡ walk_at map.now 0 }
{
    next(map, 0)
}

// The address at a place of a path of `count` addresses that stands at an offset.
pub fn address(map: &[u8], path: usize, count: usize, place: usize) -> usize
    requires { (path + 2 * count ≤ length map.now) × (place < count) }
    ensures { Address map.now path count place result }
{
    get16(map, path + 2 * place)
}
