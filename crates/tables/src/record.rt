// Looking a record up: along the chain of its bucket.
// "recorded unless that destination has that path already"
ghost use Rattle.std.specs.Prelude.{◌≡◌, ◌*◌, ◌^◌, ◌<◌, ◌≤◌, length};
ghost use Rattle.layout.specs.Records.{record_place, end_of};
ghost use Rattle.tables.specs.Sums.{bucket_of};
ghost use Rattle.tables.specs.Addrs.{addrs};
ghost use Rattle.tables.specs.Records.{bucket_at, is_rec, Seek};

use crate::chain::Chain;
use crate::path::PathInHand;
use layout::part::{BUCKET, BUCKETS};
use layout::record::{ENDS, LINK, RECORD, SUM, TO};
use lent::{get16, get32};

// Where the path of a record begins in Q: at the end of the one before it.
pub fn end_before(r: &[u8], row: usize) -> usize
    requires { record_place row ≤ length r.now }
    ensures { result ≡ end_of r.now row }
{
    if row == 0 {
        return 0;
    }
    get32(r, RECORD * (row - 1) + ENDS)
}

// The factor that spreads a sum's 32 bits, 2^32 over the golden ratio; so buckets are found by two products, and by no division.
const SPREAD: usize = 2654435769;

// The bucket of a sum; more buckets than 32 bits can be scaled down to are not used.
pub fn bucket_of(sum: usize, buckets: usize) -> usize
    requires { 1 ≤ buckets }
    ensures { (result ≡ bucket_of buckets sum) × (result < buckets) }
{
    let spread = sum % 0x1_0000_0000 * SPREAD % 0x1_0000_0000;
    spread * buckets.min(0x1_0000_0000) / 0x1_0000_0000
}

// What is looked up among the records: the path in hand, with its sum, and where it leads, as the bytes of a record have it.
#[derive(Clone, Copy)]
pub struct PathLookup<'a> {
    pub w: &'a [u8],
    pub path: PathInHand<'a>,
    pub r: &'a [u8],
    pub q: &'a [u8],
    pub size: usize,
    pub buckets: usize,
    pub records: usize,
    pub to: usize,
    pub sum: usize,
}

impl Chain for PathLookup<'_> {
    ghost key = { λ x. bucket_at x.buckets x.r.now };

    ghost own = { λ x. bucket_of x.buckets x.sum };

    ghost rows = { λ x. x.records };

    ghost hit = { λ x. is_rec x.r.now x.q.now x.to (addrs x.path.p.now 0 x.path.np) };

    ghost holds = { λ x. Seek x.path.p.now x.path.np x.w.now x.r.now x.q.now x.size x.buckets x.records x.sum };

    fn newest(&self) -> Option<usize> {
        get32(
            self.w,
            BUCKETS * (self.size + 1) + BUCKET * bucket_of(self.sum, self.buckets),
        )
        .checked_sub(1)
    }

    fn link(&self, row: usize) -> Option<usize> {
        get32(self.r, RECORD * row + LINK).checked_sub(1)
    }

    fn fits(&self, row: usize) -> bool {
        if get32(self.r, RECORD * row + SUM) != self.sum {
            return false;
        }
        if get16(self.r, RECORD * row + TO) != self.to {
            return false;
        }
        let at = end_before(self.r, row);
        if get32(self.r, RECORD * row + ENDS) - at != self.path.np {
            return false;
        }
        self.path.is_at(self.q, at)
    }
}
