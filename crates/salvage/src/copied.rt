// The salvage of an archive: judged in one pass, copied in another.
// "prints how many maps and bytes it copied, how many bytes it dropped and the offset of the first bad entry, or the input's length"
ghost use Rattle.std.specs.Prelude.{◌≡◌, [], ◌∷◌, ◌≤◌, length};
ghost use Rattle.spec.specs.Eights.{as_eights, over};
ghost use Rattle.salvage.specs.Promises.{Salvaged};

use crate::judge::{Judged, judge};
use lent::{copy, put64};
use refusal::Refusal;

// What is printed, in bytes: four numbers of 8.
const PRINTED: usize = 32;

// Prints: maps and bytes copied, bytes dropped, the offset.
fn print(report: &mut [u8], judged: Judged, dropped: usize)
    requires { 32 ≤ length report.old }
    ensures { report.new ≡ over (as_eights (judged.maps ∷ judged.bytes ∷ dropped ∷ judged.offset ∷ [])) report.old }
{
    put64(report, 0, judged.maps);
    put64(report, 8, judged.bytes);
    put64(report, 16, dropped);
    put64(report, 24, judged.offset);
}

// Copies the maps that read whole, up to the first that does not, and prints what it did. Or a buffer is short: "18, output room short, nothing written".
pub fn salvage(archive: &[u8], out: &mut [u8], report: &mut [u8]) -> Result<(), Refusal>
    ensures { Salvaged archive.now out.old report.old result out.new report.new }
{
    let judged = judge(archive);
    if out.len() < judged.bytes || report.len() < PRINTED {
        return Err(Refusal::Archive);
    }
    copy(out, 0, archive, 0, judged.bytes);
    print(report, judged, archive.len() - judged.bytes);
    Ok(())
}
