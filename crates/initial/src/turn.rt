// One instruction of the cutting: what it is, the block that it closes, and how the walk goes on.
// "A JUMPDEST past its block's start ends the block before it, as a Jump to it. ... An unknown byte ends the block at the previous instruction, Terminate
// false, unless the block starts at that byte; then no block is kept."
ghost use Rattle.std.specs.Prelude.{◌≡◌};
ghost use Rattle.spec.specs.Opcodes.{row};
ghost use Rattle.spec.specs.Blocks.{cut};
ghost use Rattle.initial.specs.Turn.{pushed_at, cut_of, turn_of};
ghost use Rattle.initial.specs.Promises.{Behind};
ghost use Rattle.initial.specs.declared.turn.Cut.TheVariants.{Jumpdest, Unknown};
ghost use Rattle.std.proofs.Math.Option.{none};

use crate::jump::{branching, jumping};
use evm::op;
use evm::rows::known;
use layout::row::BlockType;

// What an instruction is to the cutting, in document 01's own cases, of which `Other` is one; what ends a block for good does so with success or without.
#[derive(Clone, Copy)]
pub enum Cut {
    Jumpdest,
    Jumpi,
    Jump,
    Ends(bool),
    Unknown,
    Other,
}

// How the walk stands: a block is open from its start on, a JUMPDEST is waited for, or cutting has ended for the whole code.
#[derive(Clone, Copy)]
pub enum Walking {
    Opened(usize),
    Waiting,
    Ended,
}

// What an instruction does in the open block: it goes on, or closes the block, whose last instruction is at end; how the walk stands then is said of both.
// Neither is the lack of the other, so it is no Option.
#[derive(Clone, Copy)]
pub enum Effect {
    Goes(Walking),
    Closes {
        end: usize,
        kind: BlockType,
        then: Walking,
    },
}

// What the instruction is.
pub fn cut_of(op: u8) -> Cut
    ensures { result ≡ cut_of (cut row op) }
{
    match op {
        op::JUMPDEST => Cut::Jumpdest,
        op::JUMPI => Cut::Jumpi,
        op::JUMP => Cut::Jump,
        op::STOP | op::RETURN | op::SELFDESTRUCT => Cut::Ends(true),
        op::REVERT | op::INVALID => Cut::Ends(false),
        // most of any code: all of them are known
        op::PUSH0..=op::SWAP16 => Cut::Other,
        _ => { if known(op) { Cut::Other } else { Cut::Unknown } }
    }
}

// A JUMPDEST past its block's start ends the block before it, as a Jump to it.
fn at_jumpdest(start: usize, prev: usize, pc: usize) -> Effect
    ensures { result ≡ turn_of start prev none pc Jumpdest }
{
    if start == pc {
        return Effect::Goes(Walking::Opened(start));
    }
    Effect::Closes {
        end: prev,
        kind: BlockType::Jump { to: pc },
        then: Walking::Opened(pc),
    }
}

// An unknown byte ends the block before it, which is kept unless it starts there; from start 0 on it is kept, and cutting ends.
fn at_unknown(start: usize, prev: usize, pc: usize) -> Effect
    ensures { result ≡ turn_of start prev none pc Unknown }
{
    if start == 0 {
        return Effect::Closes {
            end: prev,
            kind: BlockType::Terminate { success: false },
            then: Walking::Ended,
        };
    }
    if pc == start {
        return Effect::Goes(Walking::Waiting);
    }
    Effect::Closes {
        end: prev,
        kind: BlockType::Terminate { success: false },
        then: Walking::Waiting,
    }
}

// One instruction at pc, in the block that is open from start on; prev is the instruction before.
pub fn closes(code: &[u8], start: usize, prev: usize, pc: usize, cut: Cut) -> Effect
    requires { Behind code.now prev pc }
    ensures { result ≡ turn_of start prev (pushed_at code.now prev) pc cut }
{
    match cut {
        Cut::Jumpdest => at_jumpdest(start, prev, pc),
        Cut::Jumpi => Effect::Closes {
            end: pc,
            kind: branching(code, prev, pc + 1),
            then: Walking::Opened(pc + 1),
        },
        Cut::Jump => Effect::Closes {
            end: pc,
            kind: jumping(code, prev),
            then: Walking::Waiting,
        },
        Cut::Ends(success) => Effect::Closes {
            end: pc,
            kind: BlockType::Terminate { success },
            then: Walking::Waiting,
        },
        Cut::Unknown => at_unknown(start, prev, pc),
        Cut::Other => Effect::Goes(Walking::Opened(start)),
    }
}
