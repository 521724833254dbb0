// A sum of numbers in 32 bits, by which rows are told apart before their cells are compared.
// "worked out with sums that wrap on purpose"
ghost use Rattle.std.specs.Prelude.{◌≡◌, ◌%◌, ◌^◌};
ghost use Rattle.tables.specs.Sums.{mixed};

// The lowest 32 bits of a number.
pub fn low(number: usize) -> u32
    ensures { result ≡ number % 2 ^ 32 }
{
    (number % 0x1_0000_0000) as u32
}

// The factors of the two sums.
pub const SUM: u32 = 37;

pub const MARK: u32 = 3;

// A sum with one number more: K times the sum, and the number.
pub fn mix<const K: u32>(sum: u32, number: u32) -> u32
    ensures { result ≡ mixed K sum number }
{
    sum.wrapping_mul(K).wrapping_add(number)
}
