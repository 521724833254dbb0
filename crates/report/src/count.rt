// What an entry adds to the totals of its map.
// "blocks of each kind, dynamic blocks with no destination (unresolved), one, or several distinct ones, records with and without destination, longest
// path"
ghost use Rattle.std.specs.Prelude.{◌≡◌};
ghost use Rattle.report.specs.Counts.{Shut, Longer, Recorded, Counted, sees_of, seen_by, opened_by, RoomToShut, Roomy};

use reader::Entry;

// The totals of a map, but for the number of maps and the energy.
#[derive(Clone, Copy, Default)]
pub struct Counts {
    pub terminate: usize,
    pub jump: usize,
    pub jumpi: usize,
    pub dynamic_jump: usize,
    pub dynamic_jumpi: usize,
    pub unresolved: usize,
    pub one: usize,
    pub several: usize,
    pub found: usize,
    pub nowhere: usize,
    pub longest: usize,
}

// The block at hand: not dynamic; or dynamic with no destination yet, with this one alone, or with several.
#[derive(Clone, Copy)]
pub enum Open {
    Static,
    NoneYet,
    Only(usize),
    Several,
}

// The totals once no more 7s of the block at hand can come.
pub fn shut(counts: Counts, hand: Open) -> Counts
    requires { RoomToShut counts }
    ensures { Shut counts hand result }
{
    match hand {
        Open::Static => counts,
        Open::NoneYet => Counts {
            unresolved: counts.unresolved + 1,
            ..counts
        },
        Open::Only(_) => Counts {
            one: counts.one + 1,
            ..counts
        },
        Open::Several => Counts {
            several: counts.several + 1,
            ..counts
        },
    }
}

// The totals with a path of `count` addresses among them.
fn longer(counts: Counts, count: usize) -> Counts
    ensures { Longer counts count result }
{
    let longest = counts.longest.max(count);
    Counts { longest, ..counts }
}

// The totals with a record among them, by its destination and the length of its path.
fn recorded(counts: Counts, to: Option<usize>, count: usize) -> Counts
    requires { Roomy counts }
    ensures { Recorded counts to count result }
{
    match to {
        None => longer(
            Counts {
                nowhere: counts.nowhere + 1,
                ..counts
            },
            count,
        ),
        Some(_) => longer(
            Counts {
                found: counts.found + 1,
                ..counts
            },
            count,
        ),
    }
}

// The totals behind an entry: a block ends the run of 7s of the block at hand.
pub fn counted(counts: Counts, hand: Open, entry: Entry) -> Counts
    requires { Roomy counts }
    ensures { Counted counts hand entry result }
{
    let mut more = counts;
    match entry {
        Entry::Terminate { .. } => {
            more.terminate += 1;
            shut(more, hand)
        }
        Entry::Jump { .. } => {
            more.jump += 1;
            shut(more, hand)
        }
        Entry::Jumpi { .. } => {
            more.jumpi += 1;
            shut(more, hand)
        }
        Entry::DynamicJump { .. } => {
            more.dynamic_jump += 1;
            shut(more, hand)
        }
        Entry::DynamicJumpi { .. } => {
            more.dynamic_jumpi += 1;
            shut(more, hand)
        }
        Entry::Way { count, .. } => longer(counts, count),
        Entry::Record { to, count, .. } => recorded(counts, to, count),
        Entry::Head { .. } => counts,
    }
}

// The block at hand with an address that one of its 7s leads to.
#[tactic(auto, using(crate::proofs::Counted::sees_same, crate::proofs::Counted::sees_other))]
fn sees(hand: Open, to: usize) -> Open
    ensures { result ≡ sees_of to hand }
{
    match hand {
        Open::Static => Open::Static,
        Open::NoneYet => Open::Only(to),
        Open::Only(t) => { if t == to { hand } else { Open::Several } }
        Open::Several => Open::Several,
    }
}

// The block at hand with the destination of one of its 7s.
fn seen(hand: Open, to: Option<usize>) -> Open
    ensures { result ≡ seen_by to hand }
{
    match to {
        None => hand,
        Some(t) => sees(hand, t),
    }
}

// The block at hand behind an entry.
pub fn opened(hand: Open, entry: Entry) -> Open
    ensures { result ≡ opened_by entry hand }
{
    match entry {
        Entry::Terminate { .. } | Entry::Jump { .. } | Entry::Jumpi { .. } => Open::Static,
        Entry::DynamicJump { .. } => Open::NoneYet,
        Entry::DynamicJumpi { .. } => Open::NoneYet,
        Entry::Way { to, .. } => seen(hand, to),
        Entry::Head { .. } | Entry::Record { .. } => hand,
    }
}
