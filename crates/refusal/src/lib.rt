// Why a call gives no answer: the refusals of the documents, and their numbers.
#![tactic(auto)]

ghost use Rattle.std.specs.Prelude.{◌≡◌};
ghost use Rattle.refusal.specs.Numbers.{short_number, number_of, value_of};

// A room of the search that is short.
// "4, 5, 6 | P, S, T short", "7, 8 | R, Q short"
#[derive(Clone, Copy, PartialEq, Eq, Debug)]
pub enum Shortage {
    P,
    S,
    T,
    R,
    Q,
}

// What is refused, in the order of the numbers.
#[derive(Clone, Copy, PartialEq, Eq, Debug)]
pub enum Refusal {
    // "Refusals: 1 now means over 49,152".
    Code,
    // "limit over 500,000"
    Limit,
    // "W short"
    Work,
    Room(Shortage),
    // "output short"
    Output,
    // "program only: input not an even number of hex digits with at most one closing line feed, or over 512 bytes of code"
    Input,
    // "11, text room short, last"
    Text,
    // "12, bad entry, with its offset"
    Entry { offset: usize },
    // "13, mode neither 0 nor 1, tested after 2"
    Mode,
    // "14, log not a multiple of 8 bytes"
    Log,
    // "15, count room short"
    Counts,
    // "16, a total would not fit"
    Total,
    // "17, path entry not right, with its offset"
    Path { offset: usize },
    // "18, output room short, nothing written"
    Archive,
}

impl From<Shortage> for Refusal {
    ghost use Rattle.refusal.specs.declared.Refusal.TheVariants.{Room};

    ghost from_gives = { λ short refusal. refusal ≡ Room short };

    fn from(short: Shortage) -> Refusal {
        Refusal::Room(short)
    }
}

impl Shortage {
    // The document's number.
    pub fn number(self) -> usize
        ensures { result ≡ short_number self }
    {
        match self {
            Shortage::P => 4,
            Shortage::S => 5,
            Shortage::T => 6,
            Shortage::R => 7,
            Shortage::Q => 8,
        }
    }
}

impl Refusal {
    // The document's number.
    pub fn number(self) -> usize
        ensures { result ≡ number_of self }
    {
        match self {
            Refusal::Code => 1,
            Refusal::Limit => 2,
            Refusal::Work => 3,
            Refusal::Room(short) => short.number(),
            Refusal::Output => 9,
            Refusal::Input => 10,
            Refusal::Text => 11,
            Refusal::Entry { .. } => 12,
            Refusal::Mode => 13,
            Refusal::Log => 14,
            Refusal::Counts => 15,
            Refusal::Total => 16,
            Refusal::Path { .. } => 17,
            Refusal::Archive => 18,
        }
    }

    // What is told beside the number: the entry's offset with 12 and 17, else 0.
    pub fn value(self) -> usize
        ensures { result ≡ value_of self }
    {
        match self {
            Refusal::Entry { offset } => offset,
            Refusal::Path { offset } => offset,
            _ => 0,
        }
    }
}
