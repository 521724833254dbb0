// Comparing stored states: equal stacks have equal bytes.
// "If last block, state and symbol were met in this turn, its cells are given back; next."
ghost use Rattle.std.specs.Prelude.{◌≡◌};
ghost use Rattle.spec.specs.Stacks.{eq_sym, eq_stack};
ghost use Rattle.state.specs.Cells.{sym_at, stack_at};
ghost use Rattle.state.specs.Compared.{TwoCells, TwoStates};

use crate::cell::CELL;
use lent::{get8, get64};

// Whether the cells at `one` and at `other` hold the same symbol: by their two numbers, since of == on two symbols that were read the proof did not close.
fn same_cell(bytes: &[u8], one: usize, other: usize) -> bool
    requires { TwoCells bytes.now one other }
    ensures { result ≡ eq_sym (sym_at bytes.now one) (sym_at bytes.now other) }
{
    if get64(bytes, one + 1) != get64(bytes, other + 1) {
        return false;
    }
    get8(bytes, one) == get8(bytes, other)
}

// Whether the states in so many cells from `one` on and from `other` on are the same.
// No derive computes it: the states are cells of lent bytes, and no values of a type (no heap, fixed memory).
pub fn same_state(bytes: &[u8], one: usize, other: usize, cells: usize) -> bool
    requires { TwoStates bytes.now one other cells }
    ensures { result ≡ eq_stack (stack_at bytes.now one cells) (stack_at bytes.now other cells) }
{
    for i in 0..cells {
        if !same_cell(bytes, one + CELL * i, other + CELL * i) {
            return false;
        }
    }
    true
}
