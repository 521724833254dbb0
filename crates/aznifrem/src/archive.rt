// The salvage of an archive of stored maps, exported.
// "Refusals: 18, output room short, nothing written."
ghost use Rattle.aznifrem.specs.Archives.{ExportedSalvage};

use crate::told::told_of;
use salvage::salvage;

// Copies the maps that read whole into `out`, up to the first that does not, and prints four numbers of 8 bytes into `report`: maps and bytes copied, bytes
// dropped, the offset of the first bad entry or the archive's length. Gives 0; or 18, where either buffer is short.
pub fn aznifrem_salvage(archive: &[u8], out: &mut [u8], report: &mut [u8]) -> u64
    ensures { ExportedSalvage archive.now out.old report.old out.new report.new result }
{
    told_of(salvage(archive, out, report))
}
