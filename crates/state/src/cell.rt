// A symbol in nine bytes: a tag, and the number, little-endian.
// "S: 9 bytes a symbol"
// A cell stands at a place of a lent room, so `get_cell` and `put_cell` take both (no heap, fixed memory).
ghost use Rattle.std.specs.Prelude.{◌≡◌, ◌+◌, ◌≤◌, ◌<◌, length};
ghost use Rattle.state.specs.Symbols.{sym_of};
ghost use Rattle.state.specs.Cells.{tag, value, sym_at, symbol, Put};

use crate::sym::StackSym;
use lent::{get8, get64, put8, put64};

// The bytes of a cell.
pub const CELL: usize = 9;

impl StackSym {
    // The tag of the symbol's kind, in the order of the kinds, and its number.
    pub fn parts(self) -> (usize, usize)
        ensures { (result.0 ≡ tag (sym_of self)) × (result.1 ≡ value (sym_of self)) × (result.0 < 4) }
    {
        match self {
            StackSym::Before(number) => (0, number),
            StackSym::Constant(number) => (1, number),
            StackSym::Jumpdest(number) => (2, number),
            StackSym::Other(number) => (3, number),
        }
    }

    // The symbol of a tag and a number.
    fn from_parts(tag: usize, number: usize) -> StackSym
        ensures { sym_of result ≡ symbol tag number }
    {
        match tag {
            0 => StackSym::Before(number),
            1 => StackSym::Constant(number),
            2 => StackSym::Jumpdest(number),
            _ => StackSym::Other(number),
        }
    }
}

// The symbol in the cell at `at`.
pub fn get_cell(bytes: &[u8], at: usize) -> StackSym
    requires { at + 9 ≤ length bytes.now }
    ensures { sym_of result ≡ sym_at bytes.now at }
{
    StackSym::from_parts(get8(bytes, at), get64(bytes, at + 1))
}

// Stores a symbol in the cell at `at`.
pub fn put_cell(bytes: &mut [u8], at: usize, symbol: StackSym)
    requires { at + 9 ≤ length bytes.old }
    ensures { Put bytes.old at (sym_of symbol) bytes.new }
{
    let (tag, number) = symbol.parts();
    put8(bytes, at, tag);
    put64(bytes, at + 1, number);
}
