// The instruction walker: it holds the code that it walks and its place. The work is step_at, on a slice and a number.
// "the instruction walker holds the code it walks and its place, after a plain slice-and-number core is proved"
ghost use Rattle.std.specs.Prelude.{◌≡◌, ◌-◌, length};
ghost use Rattle.std.specs.Iterator.{at_most};
ghost use Rattle.evm.specs.Step.{step_at};
ghost use Rattle.evm.specs.Walker.{walker_at, Walks};

use crate::walk::{Instruction, step_at};

#[derive(Clone, Copy)]
pub struct Walker<'a> {
    pub code: &'a [u8],
    pub at: usize,
}

impl<'a> Walker<'a> {
    // A walker at a place of the code.
    pub fn new(code: &'a [u8], at: usize) -> Walker<'a>
        ensures { result ≡ walker_at code.entry at }
    {
        Walker { code, at }
    }

    // What stands at the walker's place.
    pub fn here(self) -> Option<Instruction>
        ensures { result ≡ step_at self.entry.code.now self.entry.at }
    {
        step_at(self.code, self.at)
    }
}

// The instructions from the walker's place on.
impl<'a> Iterator for Walker<'a> {
    type Item = Instruction;

    ghost next_gives = { Walks };

    ghost remaining = { λ w. at_most (length w.code.now - w.at) };

    // The next instruction, which the walker passes; where none stands it stays.
    fn next(&mut self) -> Option<Instruction> {
        let found = step_at(self.code, self.at)?;
        self.at = found.next;
        Some(found)
    }
}

// What a walker at a place of the code finds (kept: a public function that docs/PROOFS.md names; a loop over a Walker finds the same).
pub fn step_from(code: &[u8], at: usize) -> Option<Instruction>
    ensures { result ≡ step_at code.now at }
{
    Walker::here(Walker::new(code, at))
}
