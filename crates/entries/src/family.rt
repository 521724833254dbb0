// The two families of kinds, by the code's length.
// "code over 24,576 bytes writes kinds 10, 11 and 12 in place of 7, 8 and 9, where a missing destination is 0xFFFF"
ghost use Rattle.std.specs.Prelude.{◌≡◌};
ghost use Rattle.spec.specs.Entries.{wide_code};
ghost use Rattle.entries.specs.Families.{family_of};

use layout::{MISSING, MISSING_WIDE, NARROW};

// The kinds of a block's entry, of a record without its number and of one with it; and the number of a missing destination.
#[derive(Clone, Copy)]
pub struct Family {
    pub way: usize,
    pub plain: usize,
    pub numbered: usize,
    pub missing: usize,
}

// That of a code of `size` bytes. The document's own numbers: an enum would only stand for them once more.
pub fn family_of(size: usize) -> Family
    ensures { result ≡ family_of (wide_code size) }
{
    if NARROW < size {
        return Family {
            way: 10,
            plain: 11,
            numbered: 12,
            missing: MISSING_WIDE,
        };
    }
    Family {
        way: 7,
        plain: 8,
        numbered: 9,
        missing: MISSING,
    }
}
