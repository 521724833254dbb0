// A report with new totals: what would not fit is found before a byte is written.
// "16, a total would not fit; either leaves the report as before that map"
ghost use Rattle.std.specs.Prelude.{◌≡◌, ◌≤◌, length};
ghost use Rattle.spec.specs.Eights.{eights, as_eights};
ghost use Rattle.spec.specs.Report.{renewed};
ghost use Rattle.lent.specs.Bytes.{Stored};
ghost use Rattle.report.specs.Merging.{Summed, Told, together};

use crate::number::{joined, sum_of_three};
use crate::share::lowest;
use lent::{get64, put64};
use refusal::Refusal;

// A report's bytes and numbers: its totals, then the share's two. The places are those from which, and at which, the share is worked out.
// An array and no struct with 15 fields: the numbers are read, put and joined alike, and fields would be named three times over for that.
pub const BYTES: usize = 120;

pub const NUMBERS: usize = 15;

const TOTALS: usize = 13;

const UNRESOLVED: usize = 6;

const ONE: usize = 7;

const SEVERAL: usize = 8;

const PART: usize = 13;

const WHOLE: usize = 14;

// The numbers of a report: 13 totals, and the share.
pub fn numbers(report: &[u8]) -> [usize; NUMBERS]
    requires { 120 ≤ length report.now }
    ensures { result ≡ eights 15 report.now }
{
    let mut ns = [0; NUMBERS];
    for i in 0..NUMBERS {
        ns[i] = get64(report, 8 * i);
    }
    ns
}

// Puts the numbers of a report.
fn put_numbers(report: &mut [u8], ns: &[usize; NUMBERS])
    requires { (120 ≤ length report.old) × (length ns.now ≡ 15) }
    ensures { Stored 120 report.old 0 (as_eights ns.now) report.new }
{
    for i in 0..NUMBERS {
        put64(report, 8 * i, ns[i]);
    }
}

// Joins a report's totals to the first 13 of the numbers; "16, a total would not fit".
fn join_totals(report: &[u8], ns: &mut [usize; NUMBERS]) -> Result<(), Refusal>
    requires { (120 ≤ length report.now) × (length ns.old ≡ 15) }
    ensures { Summed report.now ns.old ns.new result }
{
    for i in 0..TOTALS {
        let Some(total) = joined(i, get64(report, 8 * i), ns[i]) else {
            return Err(Refusal::Total);
        };
        ns[i] = total;
    }
    Ok(())
}

// Joins totals to a report, with the share from the sums.
pub fn merge(report: &mut [u8], ns: &mut [usize; NUMBERS]) -> Result<(), Refusal>
    requires { length ns.old ≡ 15 }
    ensures { Told report.old (renewed report.old (together report.old ns.old)) report.new result }
{
    if report.len() < BYTES {
        return Err(Refusal::Total);
    }
    join_totals(report, ns)?;
    let unresolved = ns[UNRESOLVED];
    let Some(dynamic) = sum_of_three(unresolved, ns[ONE], ns[SEVERAL]) else {
        return Err(Refusal::Total);
    };
    let share = lowest(unresolved, dynamic);
    ns[PART] = share.part;
    ns[WHOLE] = share.whole;
    put_numbers(report, ns);
    Ok(())
}
