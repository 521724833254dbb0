// The first stage: each dynamic block is run, and what its jump takes settles it.
// "First, each dynamic block whose own run ends in Jumpdest becomes static, with no test that a block starts there."
ghost use Rattle.std.specs.Prelude.{◌≡◌, ◌+◌, ◌≤◌, length};
ghost use Rattle.std.proofs.Math.Option.{some};
ghost use Rattle.layout.specs.Parts.{ROW, row_place};
ghost use Rattle.exec.specs.Modes.{mode_of};
ghost use Rattle.state.specs.Symbols.{sym_of};
ghost use Rattle.parents.specs.Writes.{static_type, make_static};
ghost use Rattle.parents.specs.Promises.{Settles, TurnRoom, Settled, Placed, Wrote};

use crate::taker::take_turn;
use exec::mode::Mode;
use exec::run::run;
use layout::row::{BlockType, END, ROW, block_at, write_block};
use lent::get16;
use state::sym::StackSym;

// Settles the block at `start`, in a mode, if a dynamic one starts there; gives how many take turns from there on.
// W and `end`: the part for runs is W's own bytes, and no slice of it, since places in it are W's (no heap, fixed memory).
pub fn settle(mode: Mode, code: &[u8], w: &mut [u8], end: usize, start: usize, many: usize) -> usize
    requires { Settles code.now w.old end start many }
    ensures { Settled (mode_of mode) code.now w.old end start many w.new result }
{
    let Some(block) = block_at(w, start) else {
        return many;
    };
    if !block.is_dynamic() {
        return many;
    }
    match run(mode, code, start, w, end).goes {
        None => many,
        Some(symbol) => place(w, start, block, symbol, many),
    }
}

// A Jumpdest makes the block static, with no test that a block starts there; a Before has it take turns.
fn place(w: &mut [u8], start: usize, block: BlockType, symbol: StackSym, many: usize) -> usize
    requires { TurnRoom w.old start many }
    ensures { Placed w.old start block (some (sym_of symbol)) many w.new result }
{
    match symbol {
        StackSym::Jumpdest(to) => {
            make_static(w, start, block, to);
            many
        }
        StackSym::Before(position) => {
            take_turn(w, start, position, many);
            many + 1
        }
        StackSym::Constant(_) | StackSym::Other(_) => many,
    }
}

// Makes the block at `start` static. "with no test that a block starts there"
fn make_static(w: &mut [u8], start: usize, block: BlockType, to: usize)
    requires { row_place start + ROW ≤ length w.old }
    ensures { Wrote w.old w.new (make_static w.old start block to) }
{
    let last = get16(w, ROW * start + END);
    write_block(w, start, last, static_type(block, to));
}

// The static type of a dynamic block: no other is settled, and each keeps its false side.
fn static_type(block: BlockType, to: usize) -> BlockType
    ensures { result ≡ static_type block to }
{
    match block {
        BlockType::DynamicJump => BlockType::Jump { to },
        BlockType::DynamicJumpi { other } => BlockType::Jumpi { to, other },
        BlockType::Jumpi { other, .. } => BlockType::Jumpi { to, other },
        BlockType::Terminate { .. } | BlockType::Jump { .. } => BlockType::Jumpi { to, other: 0 },
    }
}
