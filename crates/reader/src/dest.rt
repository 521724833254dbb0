// The destination of a path entry, whichever family its kind is of.
// "a missing destination is 0x8000"; of code over 24,576 bytes "a missing destination is 0xFFFF"
// `wide` tells the family of the map's numbers, a fact that a result depends on: it chooses no step to run.
ghost use Rattle.std.specs.Prelude.{◌≡◌};
ghost use Rattle.spec.specs.Entries.{absent};
ghost use Rattle.reader.specs.Dests.{goes_to};

use layout::{MISSING, MISSING_WIDE};

// The number that stands for a missing one.
// No derive computes it: each family has a number of its own in the document.
fn absent(wide: bool) -> usize
    ensures { result ≡ absent wide }
{
    if wide { MISSING_WIDE } else { MISSING }
}

// What a number says: an address, or none.
#[tactic(auto, using(crate::proofs::Destinations::goes_nowhere, crate::proofs::Destinations::goes_there))]
pub fn destined(wide: bool, to: usize) -> Option<usize>
    ensures { result ≡ goes_to (absent wide) to }
{
    if to == absent(wide) { None } else { Some(to) }
}
