// What a round found, handed over to the reached set when it ends.
// "Then let a round hand its targets over in batches of 64."
ghost use Rattle.std.specs.Prelude.{◌<◌};
ghost use Rattle.resolver.specs.Turns.{HandsOver, HandedAll};
ghost use Rattle.resolver.specs.Batches.{Gathers, Gathered, HandedOver};

use layout::NOWHERE;
use layout::record::{RECORD, TO};
use lent::get16;
use reachable::expand;

// How many targets a batch has at most.
const BATCH: usize = 64;

// How many targets are in a batch, and the record that the next one starts from. A batch is a fixed array: the project has no heap.
#[derive(Clone, Copy)]
struct Batch {
    many: usize,
    next: usize,
}

// W and the code's length stay two parameters here too: crates/reachable/src/lib.rt says why.
// The next targets of the records from `from` on, as many as a batch has or all that are left.
fn gather(r: &[u8], from: usize, records: usize, batch: &mut [usize; BATCH]) -> Batch
    requires { Gathers r.now from records batch.old }
    ensures { Gathered r.now from records batch.new result }
{
    let mut many = 0;
    for i in from..records {
        if many == BATCH {
            return Batch { many, next: i };
        }
        let to = get16(r, RECORD * i + TO);
        if to != NOWHERE {
            batch[many] = to;
            many += 1;
        }
    }
    Batch {
        many,
        next: records,
    }
}

// Hands one batch over, if there is anything in it; the record that the next one starts from is the answer.
fn hand_over(w: &mut [u8], size: usize, r: &[u8], from: usize, records: usize) -> usize
    requires hands_over { HandsOver size w.old r.now from records }
    requires from_lt_records { from < records }
    ensures { HandedOver size w.old r.now from records w.new result }
{
    let mut batch = [0; BATCH];
    let batched = gather(r, from, records, &mut batch);
    let many = batched.many;
    if many == 0 {
        return batched.next;
    }
    expand(w, size, &batch[0..many], records + 1);
    batched.next
}

// What the destinations of the records from `since` on lead to counts as reached when the next round begins. A batch takes as many records as fill it, so they
// are not counted one by one.
pub fn hand_all(w: &mut [u8], size: usize, r: &[u8], since: usize, records: usize)
    requires { HandsOver size w.old r.now since records }
    ensures { HandedAll size w.old r.now since records w.new }
{
    let mut i = since;
    while i < records {
        i = hand_over(w, size, r, i, records);
    }
}
