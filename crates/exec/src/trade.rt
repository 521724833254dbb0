// An instruction of which only its row is known: it takes words, and gives Others.
// "PUSH0 and PUSH5 upward give Other.": here PUSH5 upward
ghost use Rattle.exec.specs.Working.{stack_of, after_trade, Trades, Becomes};

use crate::top::Top;
use evm::rows::Row;
use state::sym::StackSym;

// The stack after an instruction that gives one word at most.
pub fn trade(w: &mut [u8], top: Top, op: u8, pc: usize) -> Top
    requires { Trades w.old top op }
    ensures { Becomes w.old top (after_trade op pc (stack_of w.old top)) w.new result }
{
    let row = Row::of(op);
    let taken = row.taken as usize;
    if row.given == 0 {
        return top.pops(taken);
    }
    top.replace(w, taken, StackSym::Other(pc))
}
