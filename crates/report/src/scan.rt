// The judgement of a stored map and its totals, in one pass over its entries: the reader's scan, with each entry counted as it is turned.
// "For a folder of stored maps, fed one after another, release management wants one report"
ghost use Rattle.std.specs.Prelude.{◌≡◌};
ghost use Rattle.spec.specs.Reader.{read};
ghost use Rattle.report.specs.Counts.{RoomToShut};
ghost use Rattle.report.specs.Scanning.{Headed, closed_of, pass_of, numbers_of};

use crate::count::{Counts, Open, counted, opened, shut};
use crate::merge::NUMBERS;
use reader::{BadEntry, Head, Scan, begin, entry_at, last, one};

// At the end: the reader's last judgement, and then the block at hand. Of a map that is refused what was counted is dropped.
// The head's counts stay two numbers, as `reader::last` takes them: a `Head` has the energy and a place too, which are not judged.
fn closed(
    scan: Scan,
    blocks: usize,
    records: usize,
    counts: Counts,
    hand: Open,
) -> Result<Counts, BadEntry>
    requires { RoomToShut counts }
    ensures { result ≡ closed_of scan blocks records counts hand }
{
    last(scan, blocks, records)?;
    Ok(shut(counts, hand))
}

// The entries behind the head, one a turn.
pub fn entries(map: &[u8], head: Head) -> Result<Counts, BadEntry>
    requires { Headed map.now head.behind head.blocks head.records }
    ensures { result ≡ pass_of (read map.now) }
{
    let mut scan = begin(head.behind);
    let mut counts = Counts::default();
    let mut hand = Open::Static;
    while scan.at < map.len() {
        let entry = entry_at(map, scan.at);
        scan = one(map, scan)?;
        let Ok(entry) = entry else { unreachable!() };
        counts = counted(counts, hand, entry);
        hand = opened(hand, entry);
    }
    closed(scan, head.blocks, head.records, counts, hand)
}

// The totals of a map, with its energy, as the numbers of its report; those of its share are not worked out.
pub fn numbers_of(counts: Counts, energy: usize) -> [usize; NUMBERS]
    ensures { result ≡ numbers_of counts energy }
{
    [
        1,
        counts.terminate,
        counts.jump,
        counts.jumpi,
        counts.dynamic_jump,
        counts.dynamic_jumpi,
        counts.unresolved,
        counts.one,
        counts.several,
        counts.found,
        counts.nowhere,
        counts.longest,
        energy,
        0,
        0,
    ]
}
