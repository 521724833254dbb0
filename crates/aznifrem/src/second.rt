// The map inspector, exported.
// "build an inspector that takes code and a map in our form and accepts each path entry with a destination only if replaying it in the mode the caller names
// is right"
ghost use Rattle.aznifrem.specs.InspectContract.{ExportedInspect, ExportedInspectFrom};

use crate::told::told_of;
use inspector::{inspect, inspect_from};

// Inspects the path entries of a stored map against a code, in mode 0 or 1: 0 where all with a destination are right; or the refusal's number, with 12 and 17
// also 256 times the entry's offset (`told`), and with 17 the place in its path in `place`, where it has 8 bytes.
pub fn aznifrem_inspect(mode: u64, code: &[u8], map: &[u8], w: &mut [u8], place: &mut [u8]) -> u64
    ensures { ExportedInspect mode code.now map.now w.old place.old w.new place.new result }
{
    told_of(inspect(mode as usize, code, map, w, place))
}

// The same of those that stand at the offset `from` or later; with 17 all that are not right in `rows`, 16 bytes each, as many as it has room for.
pub fn aznifrem_inspect_from(
    mode: u64,
    from: u64,
    code: &[u8],
    map: &[u8],
    w: &mut [u8],
    rows: &mut [u8],
) -> u64
    ensures { ExportedInspectFrom mode code.now map.now from w.old rows.old w.new rows.new result }
{
    told_of(inspect_from(mode as usize, code, map, from as usize, w, rows))
}
