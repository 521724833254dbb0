// The two calls.
// "Refusals: 12 as in No. 2, then 16, a total would not fit"
ghost use Rattle.std.specs.Prelude.{◌≡◌};
ghost use Rattle.spec.specs.Report.{report_join};
ghost use Rattle.report.specs.Merging.{Told};
ghost use Rattle.report.specs.Calls.{Added};

use crate::merge::{BYTES, merge, numbers};
use crate::scan::{entries, numbers_of};
use reader::head_of;
use refusal::Refusal;

// Adds a stored map to a report, in one pass over the map. "12 as in No. 2", then "16, a total would not fit".
pub fn add(report: &mut [u8], map: &[u8]) -> Result<(), Refusal>
    ensures { Added report.old map.now report.new result }
{
    let head = head_of(map)?;
    let counts = entries(map, head)?;
    let mut ns = numbers_of(counts, head.energy);
    merge(report, &mut ns)
}

// "Feeding two folders and joining their reports (sums added, the longer path, the share from the sums) gives the report of both together": joins
// another report to a report.
pub fn join(report: &mut [u8], other: &[u8]) -> Result<(), Refusal>
    ensures { Told report.old (report_join report.old other.now) report.new result }
{
    if other.len() < BYTES {
        return Err(Refusal::Total);
    }
    let mut ns = numbers(other);
    merge(report, &mut ns)
}
