// A block's own run: from its start to its end, its stack trimmed and stored, and the symbol that its jump takes.
// "A block's stack is trimmed at its end; a composed one is not."
ghost use Rattle.std.specs.Prelude.{◌≡◌};
ghost use Rattle.spec.specs.Stacks.{joins, trims};
ghost use Rattle.exec.specs.Modes.{mode_of};
ghost use Rattle.state.specs.Symbols.{sym_of};
ghost use Rattle.state.specs.Cells.{syms_at, Lies};
ghost use Rattle.exec.specs.Owns.{Runs, ToEnd, Trims, Owned};

use crate::mode::Mode;
use crate::step::{Stepped, step};
use crate::top::Top;
use evm::walker::Walker;
use state::cell::{CELL, get_cell, put_cell};
use state::sym::StackSym;

// Where a run ended: the stack in hand, and the symbol that its jump takes, if it ends with one.
#[derive(Clone, Copy)]
struct End {
    top: Top,
    goes: Option<StackSym>,
}

// A block's own state, in n cells from `at` on, and the symbol that its jump takes, if it ends with one.
#[derive(Clone, Copy, PartialEq, Eq)]
pub struct Own {
    pub at: usize,
    pub n: usize,
    pub goes: Option<StackSym>,
}

// W and the end of the part that a run has stay two parameters: the part is W's own bytes, and no slice of it, since places in it are W's.
// Runs the block at `start` to its end, with its stack in the part of w that ends at `end`.
fn to_end(mode: Mode, code: &[u8], start: usize, w: &mut [u8], end: usize) -> End
    requires { Runs code.now w.old end }
    ensures { ToEnd (mode_of mode) code.now start w.old end w.new result }
{
    let mut top = Top {
        at: end - CELL,
        n: 0,
        base: 0,
    };
    for instruction in Walker::new(code, start) {
        match step(mode, code, start, instruction, w, top) {
            Stepped::On(after) => top = after,
            Stepped::Ends(after) => {
                return End {
                    top: after,
                    goes: None,
                };
            }
            Stepped::Jumps(after, symbol) => {
                return End {
                    top: after,
                    goes: Some(symbol),
                };
            }
        }
    }
    End { top, goes: None }
}

// Whether a symbol is the Before that the numbering gives next above Before(base).
fn joined(symbol: StackSym, base: usize) -> bool
    ensures { result ≡ joins (sym_of symbol) base }
{
    match symbol {
        StackSym::Before(position) => base != 0 && position == base - 1,
        _ => false,
    }
}

// How many of the `count` + 1 cells from `at` on are left where the symbols that the numbering gives anyway are left to it. No cell moves: the state ends
// with the uppermost of them, which is the Before that it has to end with.
fn trimmed(w: &[u8], at: usize, count: usize, base: usize) -> usize
    requires { Trims w.now at count base }
    ensures { Lies w.now at result (trims (syms_at w.now at count) base) }
{
    for i in 0..count {
        let left = count - i;
        if !joined(get_cell(w, at + CELL * (left - 1)), base - i) {
            return left + 1;
        }
    }
    1
}

// Runs the block at `start` in a mode, and stores its state in the part of w that ends at `end`, which has a cell for each byte of code, and seventeen.
pub fn run(mode: Mode, code: &[u8], start: usize, w: &mut [u8], end: usize) -> Own
    requires { Runs code.now w.old end }
    ensures { Owned (mode_of mode) code.now start w.old end w.new result }
{
    let ended = to_end(mode, code, start, w, end);
    let top = ended.top;
    let goes = ended.goes;
    put_cell(w, end - CELL, StackSym::Before(top.base));
    let cells = trimmed(w, top.at, top.n, top.base);
    Own {
        at: top.at,
        n: cells,
        goes,
    }
}
