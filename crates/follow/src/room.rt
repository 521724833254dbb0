// The room that the counts take.
// "15, count room short"
ghost use Rattle.reader.specs.Walks.{Walking};
ghost use Rattle.follow.specs.Blocks.{finals_at};
ghost use Rattle.follow.specs.Finding.{slots_of, room_in};

use crate::block::Blocks;
use crate::place::many;
use refusal::Refusal;

// How many counts the map's blocks have, where so many fit.
pub fn room_for(map: &[u8], lent: usize) -> Result<usize, Refusal>
    requires { Walking map.now 0 }
    ensures { room_in lent (slots_of (finals_at map.now 0)) result }
{
    let mut slots = 0;
    for block in (Blocks { map, at: 0 }) {
        let more = many(map, block.named);
        if lent - slots <= more {
            return Err(Refusal::Counts);
        }
        slots += 1 + more;
    }
    Ok(slots)
}
