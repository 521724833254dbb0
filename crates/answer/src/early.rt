// The refusals that come before anything is read or written.
// "1, 2, 3 are tested in that order and touch nothing." "Refusals: 13, mode neither 0 nor 1, tested after 2."
ghost use Rattle.std.specs.Prelude.{◌≡◌, ◌≤◌};
ghost use Rattle.spec.specs.Rooms.{longest, work_need};
ghost use Rattle.answer.specs.Promises.{Tested};

use exec::mode::Mode;
use layout::LONGEST;
use layout::part::{NEED, NEED_MORE};
use refusal::Refusal;

// "Work W needs 64 × code length + 256 bytes."
fn need_of(size: usize) -> usize
    requires { size ≤ longest }
    ensures { result ≡ work_need size }
{
    NEED * size + NEED_MORE
}

// The first of 1, 2, 13 and 3 that applies to a code of `size` bytes, a limit, a mode, and a W of so many bytes; the mode if none does.
pub fn early(size: usize, limit: usize, mode: usize, lent: usize) -> Result<Mode, Refusal>
    ensures { Tested size limit mode lent result }
{
    if LONGEST < size {
        return Err(Refusal::Code);
    }
    if 500000 < limit {
        return Err(Refusal::Limit);
    }
    // Not by `?`, behind which the proof does not see which refusal is handed on.
    let taken = match Mode::try_from(mode) {
        Ok(taken) => taken,
        Err(refusal) => return Err(refusal),
    };
    if lent < need_of(size) {
        return Err(Refusal::Work);
    }
    Ok(taken)
}
