// One step of the log, from where the follower stands.
// "the first step that isn't in the map"
ghost use Rattle.std.specs.Prelude.{◌≡◌, ◌+◌, ◌<◌, ◌&&◌, length, ◌==◌, nat_le};
ghost use Rattle.spec.specs.Opcodes.{row};
ghost use Rattle.spec.specs.Follow.{size_at};
ghost use Rattle.follow.specs.Finding.{Finds};
ghost use Rattle.follow.specs.Stepping.{Stood, Standing, BeginsSo, EdgeSo, InsideSo, StepsSo};

use crate::edges::place_of;
use crate::find::{Counted, Finder};
use evm::rows::size_of;

// Behind a step at pc, in a block.
#[derive(Clone, Copy)]
pub struct Stand {
    pub at: Counted,
    pub pc: usize,
}

// What a step does: it goes on in the block; it begins, with a block; it takes an edge, with the place of its count, and enters a block.
#[derive(Clone, Copy)]
pub enum Move {
    Stays(Counted),
    Begins(Counted),
    Takes { edge: usize, to: Counted },
}

// The log's first step. "A log not starting at 0 stops at its first step"
fn begin(finder: Finder, to: usize) -> Option<Move>
    requires { Finds finder }
    ensures { BeginsSo finder.entry.map.now to result }
{
    if to != 0 {
        return None;
    }
    let first = finder.find(0)?;
    Some(Move::Begins(first))
}

// A step behind a block's end: by an edge of it, to a block.
fn edge(finder: Finder, from: Counted, to: usize) -> Option<Move>
    requires finds { Finds finder }
    requires stood { Stood finder.map.now from }
    ensures { EdgeSo finder.entry.map.now from to result }
{
    let place = place_of(finder, from, to)?;
    let entered = finder.find(to)?;
    Some(Move::Takes {
        edge: from.slot + 1 + place,
        to: entered,
    })
}

// The size of an instruction, by its byte.
fn size(op: u8) -> usize
    ensures { result ≡ (row op).size }
{
    size_of(op)
}

// Whether `to` is the instruction behind the one at pc, and not beyond the block's end.
fn goes_on(code: &[u8], pc: usize, to: usize, end: usize) -> bool
    requires { pc < length code.now }
    ensures { result ≡ (to == pc + size_at code.now pc && nat_le to end) }
{
    pc <= to && to - pc == size(code[pc]) && to <= end
}

// A step from a pc of a block; nothing follows one past the code's end.
fn inside(finder: Finder, code: &[u8], stand: Stand, to: usize) -> Option<Move>
    requires finds { Finds finder }
    requires stood { Stood finder.map.now stand.at }
    ensures { InsideSo finder.entry.map.now code.now stand to result }
{
    let Stand { at, pc } = stand;
    if code.len() <= pc {
        return None;
    }
    if pc == at.block.end {
        return edge(finder, at, to);
    }
    if goes_on(code, pc, to, at.block.end) {
        return Some(Move::Stays(at));
    }
    None
}

// A step, from wherever: before the log's first step there is no stand.
pub fn step(finder: Finder, code: &[u8], stand: Option<Stand>, to: usize) -> Option<Move>
    requires finds { Finds finder }
    requires standing { Standing finder.map.now stand }
    ensures { StepsSo finder.entry.map.now code.now stand to result }
{
    match stand {
        None => begin(finder, to),
        Some(stand) => inside(finder, code, stand, to),
    }
}
