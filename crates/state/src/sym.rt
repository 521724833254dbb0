// A symbol of a block's stack.
// "A symbol is Before(n), Constant(v), Jumpdest(v) or Other(pc)."
ghost use Rattle.std.specs.Prelude.{◌≡◌};
ghost use Rattle.spec.specs.Stacks.{known_value, from_value, is, mask};
ghost use Rattle.state.specs.Symbols.{sym_of, known_of};

use evm::op::JUMPDEST;

// What is known of a word: the word at a depth on entry, a value, a value that is a place to jump to, or where it was made.
#[derive(Clone, Copy, PartialEq, Eq)]
pub enum StackSym {
    Before(usize),
    Constant(usize),
    Jumpdest(usize),
    Other(usize),
}

impl StackSym {
    // The value with which an AND leaves a symbol as it is: it keeps the low 32 bits.
    pub const MASK: usize = 0xffff_ffff;

    // The value that the symbol is known to have, if there is one.
    pub fn known_value(self) -> Option<usize>
        ensures { known_of result ≡ known_value (sym_of self) }
    {
        match self {
            StackSym::Constant(value) | StackSym::Jumpdest(value) => Some(value),
            StackSym::Before(_) | StackSym::Other(_) => None,
        }
    }

    // Whether the symbol is known to be the mask.
    pub fn is_mask(self) -> bool
        ensures { result ≡ is mask (known_value (sym_of self)) }
    {
        match self.known_value() {
            Some(value) => StackSym::MASK == value,
            None => false,
        }
    }

    // A Jumpdest if the byte at the value is 5B, else a Constant.
    pub fn from_value(value: usize, code: &[u8]) -> StackSym
        ensures { sym_of result ≡ from_value code.now value }
    {
        if value < code.len() && code[value] == JUMPDEST {
            return StackSym::Jumpdest(value);
        }
        StackSym::Constant(value)
    }
}
