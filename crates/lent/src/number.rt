// Little-endian numbers, by one function over the width: the compiler makes one load or store of it, and one law proves all.
// "Output entries: ... little-endian."
// A number stands at a place of a lent room, so all of these take both (no heap, fixed memory).
ghost use Rattle.std.specs.Prelude.{◌+◌, ◌≤◌, length};
ghost use Rattle.spec.specs.Lists.{little};
ghost use Rattle.lent.specs.Bytes.{Holds, Stored};

// The number in the N bytes from `at` on, the last one first.
fn get<const N: usize>(bytes: &[u8], at: usize) -> usize
    requires { (N ≤ 8) × (at + N ≤ length bytes.now) }
    ensures { Holds N bytes.now at result }
{
    let mut value = 0;
    for i in 0..N {
        value = value * 256 + bytes[at + (N - 1 - i)] as usize;
    }
    value
}

// Stores the N lowest bytes of `value` from `at` on.
fn put<const N: usize>(bytes: &mut [u8], at: usize, value: usize)
    requires { at + N ≤ length bytes.old }
    ensures { Stored N bytes.old at (little N value) bytes.new }
{
    let mut left = value;
    for i in 0..N {
        bytes[at + i] = (left % 256) as u8;
        left /= 256;
    }
}

// The widths by name, a line each: what the crates above call.

// The byte at `at`.
pub fn get8(bytes: &[u8], at: usize) -> usize
    requires { at + 1 ≤ length bytes.now }
    ensures { Holds 1 bytes.now at result }
{
    get::<1>(bytes, at)
}

// The number in the two bytes from `at` on.
pub fn get16(bytes: &[u8], at: usize) -> usize
    requires { at + 2 ≤ length bytes.now }
    ensures { Holds 2 bytes.now at result }
{
    get::<2>(bytes, at)
}

// The number in the four bytes from `at` on.
pub fn get32(bytes: &[u8], at: usize) -> usize
    requires { at + 4 ≤ length bytes.now }
    ensures { Holds 4 bytes.now at result }
{
    get::<4>(bytes, at)
}

// The number in the eight bytes from `at` on.
pub fn get64(bytes: &[u8], at: usize) -> usize
    requires { at + 8 ≤ length bytes.now }
    ensures { Holds 8 bytes.now at result }
{
    get::<8>(bytes, at)
}

// Stores the lowest byte of `value` at `at`.
pub fn put8(bytes: &mut [u8], at: usize, value: usize)
    requires { at + 1 ≤ length bytes.old }
    ensures { Stored 1 bytes.old at (little 1 value) bytes.new }
{
    put::<1>(bytes, at, value)
}

// Stores the two lowest bytes of `value` from `at` on.
pub fn put16(bytes: &mut [u8], at: usize, value: usize)
    requires { at + 2 ≤ length bytes.old }
    ensures { Stored 2 bytes.old at (little 2 value) bytes.new }
{
    put::<2>(bytes, at, value)
}

// Stores the four lowest bytes of `value` from `at` on.
pub fn put32(bytes: &mut [u8], at: usize, value: usize)
    requires { at + 4 ≤ length bytes.old }
    ensures { Stored 4 bytes.old at (little 4 value) bytes.new }
{
    put::<4>(bytes, at, value)
}

// Stores the eight bytes of `value` from `at` on.
pub fn put64(bytes: &mut [u8], at: usize, value: usize)
    requires { at + 8 ≤ length bytes.old }
    ensures { Stored 8 bytes.old at (little 8 value) bytes.new }
{
    put::<8>(bytes, at, value)
}
