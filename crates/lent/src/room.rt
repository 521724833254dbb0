// What a length has room for.
// "Counts round down, and of any room at most 2^30 units count as lent"
ghost use Rattle.std.specs.Prelude.{◌≡◌, ◌/◌, ◌^◌, ◌<◌, min};

// How many units of `unit` bytes count as lent: whole ones, and at most 2^30.
pub fn units(len: usize, unit: usize) -> usize
    requires { 0 < unit }
    ensures { result ≡ min (len / unit) (2 ^ 30) }
{
    (len / unit).min(0x4000_0000)
}
