// What a call gives as one number.
// "12, bad entry, with its offset"
ghost use Rattle.std.specs.Prelude.{◌≡◌, ◌≤◌};
ghost use Rattle.spec.specs.Reader.{told};
ghost use Rattle.aznifrem.specs.Told.{told_of, told_place};

use refusal::Refusal;

// The number, and 256 times the value.
fn told(number: usize, value: usize) -> u64
    requires { number ≤ 18 }
    ensures { result ≡ told number value }
{
    if value < 0x100_0000_0000_0000 {
        return (number + 256 * value) as u64;
    }
    (number + 256 * 0xFF_FFFF_FFFF_FFFF) as u64
}

// 0, or the refusal's number and what is told beside it.
pub fn told_of(answer: Result<(), Refusal>) -> u64
    ensures { result ≡ told_of answer }
{
    match answer {
        Ok(()) => 0,
        Err(refusal) => told(refusal.number(), refusal.value()),
    }
}

// 0 and a place, or the refusal's number and what is told beside it.
pub fn told_place(answer: Result<usize, Refusal>) -> u64
    ensures { result ≡ told_place answer }
{
    match answer {
        Ok(place) => told(0, place),
        Err(refusal) => told_of(Err(refusal)),
    }
}
