// Sums of two totals, where they fit.
// "Totals are exact, 64-bit."
ghost use Rattle.std.specs.Prelude.{◌≡◌, ◌+◌};
ghost use Rattle.report.specs.Numbers.{joined_at, summed};

// The place of the longest path among the totals.
const LONGEST: usize = 11;

// The sum of three numbers, if it is of 64 bits.
pub fn sum_of_three(first: usize, second: usize, third: usize) -> Option<usize>
    ensures { result ≡ summed (first + second + third) }
{
    first.checked_add(second)?.checked_add(third)
}

// Two totals at a place, if what they give is of 64 bits: "sums added, the longer path".
pub fn joined(place: usize, first: usize, second: usize) -> Option<usize>
    ensures { result ≡ summed (joined_at place first second) }
{
    if place == LONGEST {
        Some(first.max(second))
    } else {
        first.checked_add(second)
    }
}
