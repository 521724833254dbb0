// The mode of a run, which callers of the step must say.
// "Add a mode in which PUSH0 gives the known value 0, a Jumpdest if byte 0 is 5B."
ghost use Rattle.std.specs.Prelude.{◌≡◌, ◌≤◌};
ghost use Rattle.exec.specs.Modes.{mode_of, Decodes};

use refusal::Refusal;

// The document's two modes, neither the lack of the other: an Option would be no plainer.
#[derive(Clone, Copy, PartialEq, Eq, Debug)]
pub enum Mode {
    Plain,
    KnownZero,
}

// "13, mode neither 0 nor 1"
impl TryFrom<usize> for Mode {
    type Error = Refusal;

    ghost try_from_gives = { Decodes };

    fn try_from(mode: usize) -> Result<Mode, Refusal> {
        match mode {
            0 => Ok(Mode::Plain),
            1 => Ok(Mode::KnownZero),
            _ => Err(Refusal::Mode),
        }
    }
}

impl From<Mode> for usize {
    ghost from_gives = { λ mode number. number ≡ mode_of mode };

    fn from(mode: Mode) -> usize {
        match mode {
            Mode::Plain => 0,
            Mode::KnownZero => 1,
        }
    }
}

// The mode of a number that is one: what `try_from` gives, for those who have tested the number (kept, with `one-mode`: a public function that docs/PROOFS.md
// names).
pub fn mode_of(mode: usize) -> Mode
    requires { mode ≤ 1 }
    ensures { mode_of result ≡ mode }
{
    if mode == 0 {
        return Mode::Plain;
    }
    Mode::KnownZero
}
