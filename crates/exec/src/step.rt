// One instruction of a block's run: one decision over its byte and the ranges of bytes.
// "Which instruction does what is one decision over the byte and its ranges."
ghost use Rattle.std.specs.Prelude.{◌≡◌, ◌+◌, ◌-◌, ◌≤◌, drop};
ghost use Rattle.spec.specs.Walk.{ins};
ghost use Rattle.spec.specs.Stacks.{Stack, read, pops, push, from_value};
ghost use Rattle.state.specs.Symbols.{sym_of};
ghost use Rattle.exec.specs.Modes.{mode_of};
ghost use Rattle.exec.specs.Working.{stack_of, Ready, Near, Becomes};
ghost use Rattle.exec.specs.Steps.{leaps, next, zero_at, spelt, Pushes, Steps, Turns};

use crate::mode::Mode;
use crate::swap::swapped;
use crate::top::Top;
use crate::trade::trade;
use crate::words::{add, and};
use evm::op::{
    ADD, AND, DUP1, DUP16, INVALID, JUMP, JUMPDEST, JUMPI, PC, PUSH0, PUSH1, PUSH4, RETURN, REVERT,
    SELFDESTRUCT, STOP, SWAP1, SWAP16,
};
use evm::walk::{Instruction, argument_at};
use state::sym::StackSym;

// What an instruction leaves: the run goes on, ends, or jumps to where a symbol says. As the definition has it, case by case.
#[derive(Clone, Copy)]
pub enum Stepped {
    On(Top),
    Ends(Top),
    Jumps(Top, StackSym),
}

// How far a byte lies past another.
fn past(first: u8, op: u8) -> usize
    requires { first ≤ op }
    ensures { result ≡ op - first }
{
    usize::from(op - first)
}

// PUSH1 to PUSH4: the `count` bytes after pc, as a value.
fn push_value(code: &[u8], w: &mut [u8], top: Top, pc: usize, count: usize) -> Top
    requires { Pushes w.old top code.now pc count }
    ensures { Becomes w.old top (push (from_value code.now (spelt code.now pc count)) (stack_of w.old top)) w.new result }
{
    let value = argument_at(code, pc, count) as usize;
    top.push(w, StackSym::from_value(value, code))
}

// PC: the instruction's own place, as a value.
fn push_pc(code: &[u8], w: &mut [u8], top: Top, pc: usize) -> Top
    requires { Ready w.old top }
    ensures { Becomes w.old top (push (from_value code.now pc) (stack_of w.old top)) w.new result }
{
    top.push(w, StackSym::from_value(pc, code))
}

// The symbol of PUSH0, at pc.
fn zero(mode: Mode, code: &[u8], pc: usize) -> StackSym
    ensures { sym_of result ≡ zero_at (mode_of mode) code.now pc }
{
    match mode {
        Mode::Plain => StackSym::Other(pc),
        Mode::KnownZero => StackSym::from_value(0, code),
    }
}

// PUSH0: the value 0 where it is known, and Other where not.
fn push_zero(mode: Mode, code: &[u8], w: &mut [u8], top: Top, pc: usize) -> Top
    requires { Ready w.old top }
    ensures { Becomes w.old top (push (zero_at (mode_of mode) code.now pc) (stack_of w.old top)) w.new result }
{
    top.push(w, zero(mode, code, pc))
}

// JUMP and JUMPI: to the top word; so many words are taken.
fn jumped(w: &[u8], top: Top, words: usize) -> Stepped
    ghost stack: { Stack }
    requires top_value { stack_of w.now top ≡ stack }
    requires near { Near w.now top words }
    ensures { Turns w.now top (leaps (pops words stack) (read stack 0)) w.now result }
{
    let to = top.read(w, 0);
    Stepped::Jumps(top.pops(words), to)
}

// The step, in a mode, at an instruction of the block that starts at `start`.
pub fn step(
    mode: Mode,
    code: &[u8],
    start: usize,
    instruction: Instruction,
    w: &mut [u8],
    top: Top,
) -> Stepped
    requires { Steps code.now instruction.pc instruction.op w.old top }
    ensures { Turns w.old top (next (mode_of mode) code.now start
        (ins instruction.pc instruction.op (drop (instruction.pc + 1) code.now)) (stack_of w.old top)) w.new result }
{
    let Instruction { pc, op, .. } = instruction;
    match op {
        PUSH1..=PUSH4 => Stepped::On(push_value(code, w, top, pc, past(PUSH0, op))),
        PUSH0 => Stepped::On(push_zero(mode, code, w, top, pc)),
        PC => Stepped::On(push_pc(code, w, top, pc)),
        DUP1..=DUP16 => Stepped::On(top.dup(w, past(DUP1, op))),
        SWAP1..=SWAP16 => Stepped::On(swapped(w, top, past(SWAP1, op))),
        AND => Stepped::On(and(w, top, pc)),
        ADD => Stepped::On(add(code, w, top, pc)),
        JUMP => jumped(w, top, 1),
        JUMPI => jumped(w, top, 2),
        JUMPDEST => {
            if pc == start {
                return Stepped::On(top);
            }
            Stepped::Ends(top)
        }
        STOP | RETURN | REVERT | INVALID | SELFDESTRUCT => Stepped::Ends(trade(w, top, op, pc)),
        _ => Stepped::On(trade(w, top, op, pc)),
    }
}
