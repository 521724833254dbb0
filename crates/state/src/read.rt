// Reading a stored state.
// "Before(n) is the word at depth n on entry, top 0; below the stored stack the numbering goes on by one."
// A state is so many cells from a place of a lent room on, so bytes, place and count stand beside one another (no heap, fixed memory).
ghost use Rattle.std.specs.Prelude.{◌≡◌};
ghost use Rattle.spec.specs.Stacks.{read};
ghost use Rattle.state.specs.Symbols.{sym_of};
ghost use Rattle.state.specs.Cells.{stack_at, State};
ghost use Rattle.state.specs.Stored.{Readable};

use crate::cell::{CELL, get_cell};
use crate::sym::StackSym;
use lent::get64;

// The number of the Before at the bottom of the state in so many cells from `at` on.
pub fn base_at(bytes: &[u8], at: usize, cells: usize) -> usize
    requires { State bytes.now at cells }
    ensures { result ≡ (stack_at bytes.now at cells).base }
{
    get64(bytes, at + CELL * (cells - 1) + 1)
}

// The symbol at a position of the state in so many cells from `at` on; below the cells the numbering goes on. The bottom is always a Before, since a
// State is asked for: there is nothing to panic at.
pub fn symbol_at(bytes: &[u8], at: usize, cells: usize, position: usize) -> StackSym
    requires { Readable bytes.now at cells position }
    ensures { sym_of result ≡ read (stack_at bytes.now at cells) position }
{
    if position < cells {
        return get_cell(bytes, at + CELL * position);
    }
    StackSym::Before(base_at(bytes, at, cells) + (position - (cells - 1)))
}
