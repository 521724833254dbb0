// The inspector: "takes code and a map in our form".
// Mode, code and map stay apart in `inspect_from` and `inspect`: a `Replay` is built only once a map is accepted, for `found`. W and rows: C interface.
ghost use Rattle.std.specs.Prelude.{◌≤◌, length};
ghost use Rattle.exec.specs.Modes.{mode_of};
ghost use Rattle.inspector.specs.Symbols.{Lent};
ghost use Rattle.inspector.specs.Calling.{early_in, Found, Tells, InspectedFrom, InspectedAs};

use crate::entries::Wrong;
use crate::fill::fill;
use crate::list::listed;
use crate::replay::Replay;
use exec::mode::Mode;
use layout::LONGEST;
use layout::part::{NEED, NEED_MORE};
use lent::wipe;
use reader::read;
use refusal::Refusal;

// The mode of a number, where nothing is wrong with a code of `size` bytes, that number, and a W of so many bytes; the tests stand in this order.
// "Refusals: 1, 13 and 3 as before": `answer` tests a limit between them, so one function for both calls would take a limit that this one has not.
fn early(size: usize, mode: usize, lent: usize) -> Result<Mode, Refusal>
    ensures { early_in size mode lent result }
{
    if LONGEST < size {
        return Err(Refusal::Code);
    }
    let mode = Mode::try_from(mode)?;
    if lent < NEED * size + NEED_MORE {
        return Err(Refusal::Work);
    }
    Ok(mode)
}

// Judges the path entries of the map, and leaves W wiped.
fn found(replay: Replay, w: &mut [u8], from: usize, rows: &mut [u8]) -> Result<(), Wrong>
    requires { Lent replay.code.now w.old }
    ensures { Found (mode_of replay.entry.mode) replay.entry.map.now replay.entry.code.now from w.old rows.old w.new rows.new result }
{
    wipe(w); // What the caller left there is no table.
    fill(replay, w);
    let finding = listed(replay, w, from, rows);
    wipe(w); // It is lent for the call, and tells nothing afterwards.
    finding
}

// Inspects the path entries of a stored map that stand at the offset `from` or later against a code, in mode 0 or 1.
// "12 as in No. 2; 17, path entry not right, with its offset"
pub fn inspect_from(
    mode: usize,
    code: &[u8],
    map: &[u8],
    from: usize,
    w: &mut [u8],
    rows: &mut [u8],
) -> Result<(), Refusal>
    ensures { InspectedFrom mode code.now map.now from w.old rows.old w.new rows.new result }
{
    let mode = early(code.len(), mode, w.len())?;
    if let Err(bad) = read(map) {
        wipe(w);
        return Err(Refusal::from(bad));
    }
    match found(Replay { mode, code, map }, w, from, rows) {
        Ok(()) => Ok(()),
        Err(wrong) => Err(Refusal::Path {
            offset: wrong.offset,
        }),
    }
}

// Copies the place in the path out of a row, where it has 8 bytes.
#[tactic(auto, using(crate::proofs::Answering::untold, crate::proofs::Answering::told))]
fn tell(place: &mut [u8], row: &[u8])
    requires { 16 ≤ length row.now }
    ensures { Tells place.old row.now place.new }
{
    if 8 <= place.len() {
        place[..8].copy_from_slice(&row[8..16]);
    }
}

// Inspects all of them; of the first that is not right the place in its path.
pub fn inspect(
    mode: usize,
    code: &[u8],
    map: &[u8],
    w: &mut [u8],
    place: &mut [u8],
) -> Result<(), Refusal>
    ensures { InspectedAs mode code.now map.now w.old place.old w.new place.new result }
{
    let mut row = [0u8; 16];
    let inspected = inspect_from(mode, code, map, 0, w, &mut row);
    if let Err(refusal) = inspected {
        if let Refusal::Path { .. } = refusal {
            tell(place, &row);
        }
    }
    inspected
}
