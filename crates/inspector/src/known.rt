// Whether a block of a path is sound.
// "starts within the code, no unknown byte run"
ghost use Rattle.std.specs.Prelude.{◌≡◌};
ghost use Rattle.spec.specs.Opcodes.{row};
ghost use Rattle.spec.specs.Meaning.{closing};
ghost use Rattle.spec.specs.Inspector.{sound};
ghost use Rattle.inspector.specs.Paths.{last_at, known_at};

use evm::op::{INVALID, JUMP, JUMPDEST, JUMPI, RETURN, REVERT, SELFDESTRUCT, STOP};
use evm::rows::known;
use evm::walker::Walker;

// JUMP, JUMPI and what halts.
#[tactic(auto, unfolding(spec::specs::Meaning::closing))]
fn closes(op: u8) -> bool
    ensures { result ≡ closing op }
{
    matches!(
        op,
        JUMP | JUMPI | STOP | RETURN | REVERT | INVALID | SELFDESTRUCT
    )
}

// Whether the run of the block at `start` ends with the instruction op at pc.
#[tactic(auto, unfolding(spec::specs::Meaning::closing))]
fn last(start: usize, pc: usize, op: u8) -> bool
    ensures { result ≡ last_at start pc op }
{
    closes(op) || op == JUMPDEST && pc != start
}

// Whether the run from `start` meets no unknown byte.
fn all_known(code: &[u8], start: usize) -> bool
    ensures { result ≡ known_at code.now start start }
{
    for instruction in Walker::new(code, start) {
        if !known(instruction.op) {
            return false;
        }
        if last(start, instruction.pc, instruction.op) {
            return true;
        }
    }
    true
}

// Whether a block of a path starts within the code and its run meets no unknown byte.
pub fn is_sound(code: &[u8], start: usize) -> bool
    ensures { result ≡ sound row code.now start }
{
    start < code.len() && all_known(code, start)
}
