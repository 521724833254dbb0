// The list of the blocks' starts, as whoever goes along it reads it: by places, since preparing writes W as it goes, so that no iterator can hold it.
// "blocks by start"
ghost use Rattle.std.specs.Prelude.{◌+◌, ◌≤◌, length};
ghost use Rattle.lent.specs.Bytes.{Holds};
ghost use Rattle.layout.specs.Parts.{start_place};

use layout::part::{START, STARTS, STARTS_MORE};
use lent::get16;

// The entry at a place of the list, for a code of `size` bytes.
// W and the code's length stay two parameters: preparing holds W to write it too, so a struct of shared slices would be made for each call.
pub fn start_at(w: &[u8], size: usize, place: usize) -> usize
    requires { start_place size place + 2 ≤ length w.now }
    ensures { Holds 2 w.now (start_place size place) result }
{
    get16(w, STARTS * size + STARTS_MORE + START * place)
}
