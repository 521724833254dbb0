// The first map of an archive, judged in one pass: the reader's scan, which stops where the head's counts say.
// "A map ends where its head's counts say."
// The head's counts stay two numbers in `over` and `closed`, as in `reader::last`: a `Head` has the energy and a place too, which are not judged.
ghost use Rattle.std.specs.Prelude.{◌≡◌, length};
ghost use Rattle.spec.specs.Reader.{read};
ghost use Rattle.spec.specs.Salvage.{first_map};
ghost use Rattle.salvage.specs.Promises.{Headed, runs, over_of, closed_of, first_of};

use reader::{BadEntry, Head, Order, Scan, begin, head_of, last, one, seven_at};

// Whether a 7 at an offset is of the run of 7s behind a block: the order tells whether a block, or a 7 of its run, is the last entry before it.
fn of_run(archive: &[u8], at: usize, order: Order) -> bool
    ensures { result ≡ runs order archive.now at }
{
    match order {
        Order::Blocks { low } => low != 0 && seven_at(archive, at),
        Order::Sevens { .. } => seven_at(archive, at),
        Order::Records { .. } => false,
    }
}

// Whether the map is over where the scan stands: no byte is left, or as many blocks and records came as the head says and no 7 of a run is next.
fn over(archive: &[u8], scan: Scan, blocks: usize, records: usize) -> bool
    ensures { result ≡ over_of archive.now scan blocks records }
{
    if archive.len() <= scan.at {
        return true;
    }
    let met = blocks <= scan.blocks && records <= scan.records;
    met && !of_run(archive, scan.at, scan.place)
}

// What a map that is over says: the reader's last judgement of it, and else how many bytes it has.
fn closed(scan: Scan, blocks: usize, records: usize) -> Result<usize, BadEntry>
    ensures { result ≡ closed_of scan blocks records }
{
    last(scan, blocks, records)?;
    Ok(scan.at)
}

// The entries behind the head, one a turn.
fn entries(archive: &[u8], head: Head) -> Result<usize, BadEntry>
    requires { Headed archive.now head.behind head.blocks head.records }
    ensures { result ≡ first_of (length (first_map archive.now)) (read (first_map archive.now)) }
{
    let mut scan = begin(head.behind);
    while !over(archive, scan, head.blocks, head.records) {
        scan = one(archive, scan)?;
    }
    closed(scan, head.blocks, head.records)
}

// The map that an archive begins with: how many bytes it has, if it reads whole.
pub fn first_map(archive: &[u8]) -> Result<usize, BadEntry>
    ensures { result ≡ first_of (length (first_map archive.now)) (read (first_map archive.now)) }
{
    let head = head_of(archive)?;
    entries(archive, head)
}
