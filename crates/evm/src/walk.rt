// The walk over code, on a slice and a number: one whole instruction at a place, and the number that its argument spells.
// "walks whole instructions; stops before one that runs past the end"
ghost use Rattle.std.specs.Prelude.{◌≡◌, leb, ltb};
ghost use Rattle.spec.specs.Opcodes.{argument};
ghost use Rattle.evm.specs.Argument.{Follow, Spelled};
ghost use Rattle.evm.specs.Step.{next_at, step_at};

use crate::rows::size_of;

// A whole instruction of the code, with the place of the next one.
#[derive(Clone, Copy, PartialEq, Eq)]
pub struct Instruction {
    pub pc: usize,
    pub op: u8,
    pub next: usize,
}

// The instruction at a place of the code; none where the code ends, or ends before the instruction does.
pub fn step_at(code: &[u8], at: usize) -> Option<Instruction>
    ensures { result ≡ step_at code.now at }
{
    if code.len() <= at {
        return None;
    }
    let op = code[at];
    // most have no argument, and then the place of the next does not wait for a length
    if !is_push(op) {
        return Some(Instruction {
            pc: at,
            op,
            next: at + 1,
        });
    }
    let long = size_of(op);
    if is_whole(long, code.len() - at) {
        Some(Instruction {
            pc: at,
            op,
            next: at + long,
        })
    } else {
        None
    }
}

// Is it PUSH1 to PUSH32, of which alone bytes of code after their own belong to the instruction?
#[tactic(auto, using(crate::proofs::Arguments::push_ways))]
fn is_push(op: u8) -> bool
    ensures { result ≡ ltb 0 (argument op) }
{
    matches!(op, 0x60..=0x7f)
}

// Does an instruction end within the bytes that are left of the code? "stops before one that runs past the end"
fn is_whole(long: usize, left: usize) -> bool
    ensures { result ≡ leb long left }
{
    long <= left
}

// The place of the next instruction, if one stands at a place of the code, else the same place.
pub fn next_at(code: &[u8], at: usize) -> usize
    ensures { result ≡ next_at code.now at }
{
    match step_at(code, at) {
        Some(instruction) => instruction.next,
        None => at,
    }
}

// The number that the `count` bytes after pc spell, most significant first; without the loop for one or two, which nearly all pushes have.
pub fn argument_at(code: &[u8], pc: usize, count: usize) -> u64
    requires { Follow code.now pc count }
    ensures { Spelled code.now pc count result }
{
    if count == 1 {
        return code[pc + 1] as u64;
    }
    if count == 2 {
        return code[pc + 1] as u64 * 256 + code[pc + 2] as u64;
    }
    spell(code, pc, count)
}

// The number that the `count` bytes after pc spell, by one byte more at a time.
fn spell(code: &[u8], pc: usize, count: usize) -> u64
    requires { Follow code.now pc count }
    ensures { Spelled code.now pc count result }
{
    let mut value: u64 = 0;
    for i in 0..count {
        value = value * 256 + code[pc + 1 + i] as u64;
    }
    value
}
