// The exported calls on reports (document 02, No. 11).
// "Refusals: 12 as in No. 2, then 16, a total would not fit; either leaves the report as before that map."
ghost use Rattle.spec.specs.Report.{report_add, report_join};
ghost use Rattle.aznifrem.specs.Reports.{ExportedReport};

use crate::told::told_of;
use report::{add, join};

// Adds a stored map to a report of 120 bytes; gives 0, or 16 where a total would not fit, or 12 and 256 times the offset of the map's first bad entry.
pub fn aznifrem_report_add(report: &mut [u8], map: &[u8]) -> u64
    ensures { ExportedReport report.old (report_add report.old map.now) report.new result }
{
    told_of(add(report, map))
}

// Joins another report to a report; gives 0, or 16 where a total would not fit.
pub fn aznifrem_report_join(report: &mut [u8], other: &[u8]) -> u64
    ensures { ExportedReport report.old (report_join report.old other.now) report.new result }
{
    told_of(join(report, other))
}
