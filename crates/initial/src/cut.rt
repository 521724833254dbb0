// Cutting code into blocks, one instruction a turn.
// "Empty code has no blocks. ... A last open block is kept, Terminate false, if its start is not beyond the last instruction."
ghost use Rattle.std.specs.Prelude.{◌++◌, map, length};
ghost use Rattle.initial.specs.Rows.{blocks_at};
ghost use Rattle.initial.specs.Turn.{clipped};
ghost use Rattle.initial.specs.Promises.{Lent, Written, Stands, Standing, Ready, Turned, cutting, last};

use crate::turn::{Effect, Walking, closes, cut_of};
use evm::op::JUMPDEST;
use evm::walk::Instruction;
use evm::walker::step_from;
use layout::row::{BlockType, ROW, write_block};
use lent::wipe_part;

// The blocks of the code before the checks.
pub fn cut(code: &[u8], w: &mut [u8])
    requires { Lent code.now w.old }
    ensures { Written (length code.now) (map clipped (cutting code.now))
        w.old w.new }
{
    let size = code.len();
    wipe_part(w, 0, ROW * (size + 1));
    if size == 0 {
        return;
    }
    let mut walking = Walking::Opened(0);
    let mut prev = 0;
    let mut at = 0;
    while let Some(Instruction { pc, op, next }) = step_from(code, at) {
        walking = turn(code, w, walking, prev, pc, op);
        if let Walking::Ended = walking {
            return;
        }
        prev = pc;
        at = next;
    }
    last(w, size, walking, prev);
}

// One instruction, at pc: the block that it closes is written.
fn turn(code: &[u8], w: &mut [u8], walking: Walking, prev: usize, pc: usize, op: u8) -> Walking
    requires ready { Ready code.now w.old walking prev pc }
    requires stands { Stands code.now pc op }
    ensures { Turned code.now w.old walking prev pc op w.new result }
{
    match walking {
        Walking::Opened(start) => match closes(code, start, prev, pc, cut_of(op)) {
            Effect::Goes(next) => next,
            Effect::Closes { end, kind, then } => {
                write_block(w, start, end, kind);
                then
            }
        },
        Walking::Waiting => {
            if op == JUMPDEST {
                Walking::Opened(pc)
            } else {
                Walking::Waiting
            }
        }
        Walking::Ended => Walking::Ended,
    }
}

// A last open block is kept if its start is not beyond the last instruction.
// W and the code's length stay two parameters: `cut` lends W to `turn` before, so a struct of both would be made for this one call.
fn last(w: &mut [u8], size: usize, walking: Walking, prev: usize)
    requires { Standing size w.old walking prev size }
    ensures { Written size (blocks_at w.old size ++ last walking prev) w.old w.new }
{
    if let Walking::Opened(start) = walking {
        if start <= prev {
            write_block(w, start, prev, BlockType::Terminate { success: false });
        }
    }
}
