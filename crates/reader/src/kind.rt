// The kinds of the entries, a line each, as they are read.
// "unknown kinds"; "code over 24,576 bytes writes kinds 10, 11 and 12 in place of 7, 8 and 9"
ghost use Rattle.std.specs.Prelude.{◌≡◌};
ghost use Rattle.spec.specs.Entries.{wide_code};
ghost use Rattle.spec.specs.Forms.{sort, wide_in};
ghost use Rattle.reader.specs.Sorts.{sort_of, path_kinds, path_sort};

use layout::NARROW;
use lent::get16;

// What an entry is; a record with its number is apart. Which family a map has stays a flag, `wide`, as the definitions have it: it chooses numbers, and no step to run.
#[derive(Clone, Copy)]
pub enum Sort {
    Head,
    Terminate,
    Jump,
    Jumpi,
    DynamicJump,
    DynamicJumpi,
    Way,
    Record,
    Numbered,
}

// Whether the map of a code of so many bytes has the second family of kinds.
fn wide_code(size: usize) -> bool
    ensures { result ≡ wide_code size }
{
    NARROW < size
}

// Whether a map has the second family of kinds, by the code length behind the 6 leading bytes of its head.
pub fn wide_in(map: &[u8]) -> bool
    ensures { result ≡ wide_in map.now }
{
    8 <= map.len() && wide_code(get16(map, 6))
}

// The kinds of path entries in a family: of 7s, of records without their number, and with it.
struct Kinds {
    way: usize,
    plain: usize,
    numbered: usize,
}

// "kinds 10, 11 and 12 in place of 7, 8 and 9"
fn path_kinds(wide: bool) -> Kinds
    ensures { result ≡ path_kinds wide }
{
    if wide {
        Kinds {
            way: 10,
            plain: 11,
            numbered: 12,
        }
    } else {
        Kinds {
            way: 7,
            plain: 8,
            numbered: 9,
        }
    }
}

// What a path entry of a kind is in a family.
fn path_sort(wide: bool, kind: usize) -> Option<Sort>
    ensures { sort_of wide result ≡ path_sort wide kind }
{
    let Kinds {
        way,
        plain,
        numbered,
    } = path_kinds(wide);
    if kind == way {
        Some(Sort::Way)
    } else if kind == plain {
        Some(Sort::Record)
    } else if kind == numbered {
        Some(Sort::Numbered)
    } else {
        None
    }
}

// What an entry of a kind is in a family: a kind of the other is as one that is not known.
// No derive or conversion computes it: what a number says depends on the family beside it.
pub fn sort_of(wide: bool, kind: usize) -> Option<Sort>
    ensures { sort_of wide result ≡ sort wide kind }
{
    match kind {
        1 => Some(Sort::Head),
        2 => Some(Sort::Terminate),
        3 => Some(Sort::Jump),
        4 => Some(Sort::Jumpi),
        5 => Some(Sort::DynamicJump),
        6 => Some(Sort::DynamicJumpi),
        _ => path_sort(wide, kind),
    }
}
