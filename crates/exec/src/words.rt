// AND and ADD: what they make of two symbols, the top one first, and of the stack in hand.
// "ADD of two known values does so if the sum fits 64 bits, else Other. AND with the known value 0xffffffff, top looked at first, leaves the other symbol
// unmasked."
ghost use Rattle.std.specs.Prelude.{◌≡◌};
ghost use Rattle.std.proofs.Math.Option.{some};
ghost use Rattle.spec.specs.Stacks.{known_value, anded, summed, read};
ghost use Rattle.state.specs.Symbols.{sym_of};
ghost use Rattle.exec.specs.Working.{stack_of, after_and, after_add, Ready, Becomes};

use crate::top::Top;
use state::sym::StackSym;

// AND with the mask leaves the other symbol as it is.
fn and_of(pc: usize, first: StackSym, second: StackSym) -> StackSym
    ensures { sym_of result ≡ anded pc (sym_of first) (sym_of second) }
{
    if first.is_mask() {
        return second;
    }
    if second.is_mask() {
        return first;
    }
    StackSym::Other(pc)
}

// ADD of two known values is known, if the sum fits 64 bits.
fn sum_of(code: &[u8], pc: usize, first: StackSym, second: StackSym) -> StackSym
    ensures { sym_of result ≡ summed code.now pc (known_value (sym_of first)) (known_value (sym_of second)) }
{
    let Some(value) = first.known_value() else {
        return StackSym::Other(pc);
    };
    let Some(other) = second.known_value() else {
        return StackSym::Other(pc);
    };
    sum_of_values(code, pc, value, other)
}

// The sum of two values, if it fits 64 bits.
fn sum_of_values(code: &[u8], pc: usize, first: usize, second: usize) -> StackSym
    ensures { sym_of result ≡ summed code.now pc (some first) (some second) }
{
    match first.checked_add(second) {
        Some(sum) => StackSym::from_value(sum, code),
        None => StackSym::Other(pc),
    }
}

// The stack after AND.
pub fn and(w: &mut [u8], top: Top, pc: usize) -> Top
    requires { Ready w.old top }
    ensures { Becomes w.old top (after_and pc (stack_of w.old top)) w.new result }
{
    let first = top.read(w, 0);
    let second = top.read(w, 1);
    let symbol = and_of(pc, first, second);
    top.replace(w, 2, symbol)
}

// The stack after ADD.
pub fn add(code: &[u8], w: &mut [u8], top: Top, pc: usize) -> Top
    requires { Ready w.old top }
    ensures { Becomes w.old top (after_add code.now pc (stack_of w.old top)) w.new result }
{
    let first = top.read(w, 0);
    let second = top.read(w, 1);
    let symbol = sum_of(code, pc, first, second);
    top.replace(w, 2, symbol)
}
