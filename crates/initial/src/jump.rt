// Jumps: "static only if the previous instruction is PUSH1 to PUSH4".
ghost use Rattle.std.specs.Prelude.{◌≡◌};
ghost use Rattle.spec.specs.Blocks.{jumping, branching};
ghost use Rattle.initial.specs.Rows.{type_of};
ghost use Rattle.initial.specs.Turn.{clip, pushed_at, target_of};
ghost use Rattle.initial.specs.Promises.{Whole};

use evm::op::{PUSH0, PUSH1, PUSH4};
use evm::walk::argument_at;
use layout::row::BlockType;

// Where a jump goes after the instruction at prev: to a number that was pushed, one over 0xffff kept as 0xffff, or to what only the stack can say.
fn is_static_jump(code: &[u8], prev: usize) -> Option<usize>
    requires { Whole code.now prev }
    ensures { result ≡ target_of (pushed_at code.now prev) }
{
    let op = code[prev];
    if op < PUSH1 || PUSH4 < op {
        return None;
    }
    let value = argument_at(code, prev, (op - PUSH0) as usize);
    Some(value.min(0xffff) as usize)
}

// A JUMP after the instruction at prev.
pub fn jumping(code: &[u8], prev: usize) -> BlockType
    requires { Whole code.now prev }
    ensures { result ≡ type_of (clip (jumping (pushed_at code.now prev))) }
{
    match is_static_jump(code, prev) {
        Some(to) => BlockType::Jump { to },
        None => BlockType::DynamicJump,
    }
}

// A JUMPI after the instruction at prev, with its false side.
pub fn branching(code: &[u8], prev: usize, other: usize) -> BlockType
    requires { Whole code.now prev }
    ensures { result ≡ type_of (clip (branching (pushed_at code.now prev) other)) }
{
    match is_static_jump(code, prev) {
        Some(to) => BlockType::Jumpi { to, other },
        None => BlockType::DynamicJumpi { other },
    }
}
