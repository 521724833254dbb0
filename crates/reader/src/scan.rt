// The judgement of a byte string: one entry a turn.
ghost use Rattle.std.specs.Prelude.{◌≡◌, ◌≤◌, ◌<◌, length};
ghost use Rattle.std.proofs.Math.Option.{none};
ghost use Rattle.spec.specs.Reader.{read};
ghost use Rattle.reader.specs.Scanning.{Within, head_of, begin, pass_of, turn_of, judged, last_of, rest_of, reading_of};

use crate::class::{Order, behind, blocks_in, class_at, records_in};
use crate::entry::{Entry, entry_at};
use crate::lead::end_of;
use crate::run::stopped;
use refusal::Refusal;

// The offset of the first bad entry.
// "12, bad entry, with its offset"
#[derive(Clone, Copy, PartialEq, Eq, Debug)]
pub struct BadEntry {
    pub offset: usize,
}

impl From<BadEntry> for Refusal {
    ghost use Rattle.refusal.specs.declared.Refusal.TheVariants.{Entry};

    ghost from_gives = { λ bad refusal. refusal ≡ Entry bad.offset };

    fn from(bad: BadEntry) -> Refusal {
        Refusal::Entry { offset: bad.offset }
    }
}

// Where the scan stands: the offset of the next entry, what may come, and the blocks and records so far.
#[derive(Clone, Copy)]
pub struct Scan {
    pub at: usize,
    pub place: Order,
    pub blocks: usize,
    pub records: usize,
}

// The numbers of a map's head, but for its code length, and where the entry behind it stands.
#[derive(Clone, Copy)]
pub struct Head {
    pub blocks: usize,
    pub records: usize,
    pub energy: usize,
    pub behind: usize,
}

// The head that a map begins with; "a missing head" is bad at 0.
pub fn head_of(map: &[u8]) -> Result<Head, BadEntry>
    ensures { result ≡ head_of map.now }
{
    let Ok(entry) = entry_at(map, 0) else {
        return Err(BadEntry { offset: 0 });
    };
    match entry {
        Entry::Head {
            blocks,
            records,
            energy,
            ..
        } => {
            let behind = end_of(map, 0);
            Ok(Head {
                blocks,
                records,
                energy,
                behind,
            })
        }
        _ => Err(BadEntry { offset: 0 }),
    }
}

// The scan that begins behind the head, at an offset.
pub fn begin(at: usize) -> Scan
    ensures { result ≡ begin at }
{
    Scan {
        at,
        place: Order::Blocks { low: 0 },
        blocks: 0,
        records: 0,
    }
}

// The scan behind the entry where it stands; none where that may not come.
fn passed(map: &[u8], scan: Scan) -> Option<Scan>
    requires within { Within map.now scan }
    requires at_in_bounds { scan.at < length map.now }
    ensures { result ≡ pass_of map.now scan }
{
    let at = scan.at;
    let class = class_at(map, at)?;
    let place = behind(class, scan.place, at)?;
    Some(Scan {
        at: end_of(map, at),
        place,
        blocks: scan.blocks + blocks_in(class),
        records: scan.records + records_in(class),
    })
}

// One entry, which is there: the scan behind it, or the offset of the first bad one.
pub fn one(map: &[u8], scan: Scan) -> Result<Scan, BadEntry>
    requires within { Within map.now scan }
    requires at_in_bounds { scan.at < length map.now }
    ensures { result ≡ turn_of map.now scan }
{
    match passed(map, scan) {
        Some(next) => Ok(next),
        None => {
            let offset = stopped(map, scan.at, scan.place);
            Err(BadEntry { offset })
        }
    }
}

// "Wrong head counts are looked at last and give offset 0".
fn counts(scan: Scan, blocks: usize, records: usize) -> Result<(), BadEntry>
    ensures { result ≡ judged none blocks records scan.blocks scan.records }
{
    if blocks == scan.blocks && records == scan.records {
        return Ok(());
    }
    Err(BadEntry { offset: 0 })
}

// At the end: an open dynamic block's count, then the head's counts. They stay two numbers, which is plainer: a `Head` has the energy and a place too, which are not judged.
pub fn last(scan: Scan, blocks: usize, records: usize) -> Result<(), BadEntry>
    ensures { result ≡ last_of scan blocks records }
{
    match scan.place {
        Order::Sevens { block, left, .. } => {
            if left != 0 {
                return Err(BadEntry { offset: block });
            }
            counts(scan, blocks, records)
        }
        _ => counts(scan, blocks, records),
    }
}

// The entries behind the head, from an offset on, with the head's counts.
fn rest(map: &[u8], from: usize, blocks: usize, records: usize) -> Result<(), BadEntry>
    requires { from ≤ length map.now }
    ensures { result ≡ rest_of map.now from blocks records }
{
    let mut scan = begin(from);
    while scan.at < map.len() {
        scan = one(map, scan)?;
    }
    last(scan, blocks, records)
}

// Judges a byte string as a stored map: behind its head the entries are passed once.
pub fn read(map: &[u8]) -> Result<(), BadEntry>
    ensures { result ≡ reading_of (read map.now) }
{
    let head = head_of(map)?;
    rest(map, head.behind, head.blocks, head.records)
}
