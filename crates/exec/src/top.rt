// The stack in hand while a block is run. It grows downward: `n` cells from `at` on, top first, are the symbols above
// Before(base), and the nine bytes after them are left free for the cell of Before(base).
// "`Vec` stacks and paths: cells in lent rooms with counts."
ghost use Rattle.std.specs.Prelude.{◌≡◌};
ghost use Rattle.spec.specs.Stacks.{Stack, push, pops, read};
ghost use Rattle.state.specs.Symbols.{sym_of};
ghost use Rattle.exec.specs.Working.{stack_of, popped, Free, Near, Reads, Pops, Becomes};

use state::cell::{CELL, get_cell, put_cell};
use state::sym::StackSym;

#[derive(Clone, Copy)]
pub struct Top {
    pub at: usize,
    pub n: usize,
    pub base: usize,
}

impl Top {
    // The stack with a symbol on top.
    pub fn push(self, w: &mut [u8], symbol: StackSym) -> Top
        requires { Free w.old self }
        ensures { Becomes w.old self (push (sym_of symbol) (stack_of w.old self)) w.new result }
    {
        let at = self.at - CELL;
        put_cell(w, at, symbol);
        Top {
            at,
            n: self.n + 1,
            base: self.base,
        }
    }

    // The stack without so many upper words: where the cells run out, the numbering below them begins later.
    pub fn pops(self, words: usize) -> Top
        requires { Pops self words }
        ensures { result ≡ popped words self }
    {
        if words <= self.n {
            return Top {
                at: self.at + CELL * words,
                n: self.n - words,
                base: self.base,
            };
        }
        Top {
            at: self.at + CELL * self.n,
            n: 0,
            base: self.base + (words - self.n),
        }
    }

    // The symbol at a depth.
    pub fn read(self, w: &[u8], depth: usize) -> StackSym
        requires { Reads w.now self depth }
        ensures { sym_of result ≡ read (stack_of w.now self) depth }
    {
        if depth < self.n {
            return get_cell(w, self.at + CELL * depth);
        }
        StackSym::Before(self.base + (depth - self.n))
    }

    // The stack with the word at a depth once more on top.
    pub fn dup(self, w: &mut [u8], depth: usize) -> Top
        ghost stack: { Stack }
        requires self_value { stack_of w.old self ≡ stack }
        requires near { Near w.old self depth }
        ensures { Becomes w.old self (push (read stack depth) stack) w.new result }
    {
        let symbol = self.read(w, depth);
        self.push(w, symbol)
    }

    // The stack with a symbol in the place of so many upper words.
    pub fn replace(self, w: &mut [u8], words: usize, symbol: StackSym) -> Top
        requires { Near w.old self words }
        ensures { Becomes w.old self (push (sym_of symbol) (pops words (stack_of w.old self))) w.new result }
    {
        self.pops(words).push(w, symbol)
    }
}
