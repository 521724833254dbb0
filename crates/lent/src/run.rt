// Runs of bytes. Those that are copied go one byte a turn, of which the compiler makes wide moves: the slices' own methods call memmove, which a caller
// from C may not have; what is wiped goes by the slices' own.
// "`Vec` stacks and paths: cells in lent rooms with counts."
ghost use Rattle.std.specs.Prelude.{◌≡◌, ◌+◌, ◌≤◌, length, take, drop, replicate};
ghost use Rattle.lent.specs.Bytes.{Stored};

// Stores `count` bytes of src, from `from` on, into dst from `to` on.
pub fn copy(dst: &mut [u8], to: usize, src: &[u8], from: usize, count: usize)
    requires { (to + count ≤ length dst.old) × (from + count ≤ length src.now) }
    ensures { Stored count dst.old to (take count (drop from src.now)) dst.new }
{
    for i in 0..count {
        dst[to + i] = src[from + i];
    }
}

// Stores `count` bytes of `bytes`, from `from` on as they were, into `bytes` from `to` on; the two may overlap.
pub fn copy_within(bytes: &mut [u8], from: usize, to: usize, count: usize)
    requires { (from + count ≤ length bytes.old) × (to + count ≤ length bytes.old) }
    ensures { Stored count bytes.old to (take count (drop from bytes.old)) bytes.new }
{
    if from < to {
        return copy_up(bytes, from, to, count);
    }
    copy_down(bytes, from, to, count)
}

// `copy_within` where the bytes move down: the first goes first, so that none is read after it was overwritten.
fn copy_down(bytes: &mut [u8], from: usize, to: usize, count: usize)
    requires { (from + count ≤ length bytes.old) × (to ≤ from) }
    ensures { Stored count bytes.old to (take count (drop from bytes.old)) bytes.new }
{
    for i in 0..count {
        bytes[to + i] = bytes[from + i];
    }
}

// `copy_within` where they move up: the last goes first, for the same reason.
fn copy_up(bytes: &mut [u8], from: usize, to: usize, count: usize)
    requires { (to + count ≤ length bytes.old) × (from ≤ to) }
    ensures { Stored count bytes.old to (take count (drop from bytes.old)) bytes.new }
{
    for i in (0..count).rev() {
        bytes[to + i] = bytes[from + i];
    }
}

// Makes `count` bytes from `from` on 0.
pub fn wipe_part(bytes: &mut [u8], from: usize, count: usize)
    requires { from + count ≤ length bytes.old }
    ensures { Stored count bytes.old from (replicate count 0) bytes.new }
{
    bytes[from..from + count].fill(0);
}

// Makes every byte 0.
pub fn wipe(bytes: &mut [u8])
    ensures { bytes.new ≡ replicate (length bytes.old) 0 }
{
    bytes.fill(0);
}
