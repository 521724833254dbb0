// An entry's leading bytes: the length of its body (4) and its kind (2).
// "cut entries"
ghost use Rattle.std.specs.Prelude.{◌≡◌};
ghost use Rattle.reader.specs.Shapes.{lead_at, behind_at};

use lent::{get16, get32};

// What they say of a whole entry.
#[derive(Clone, Copy)]
pub struct Lead {
    pub kind: usize,
    pub length: usize,
}

// The leading bytes at an offset; none where the entry is cut: too few bytes are left, for them or for the body that they announce.
pub fn lead_at(map: &[u8], at: usize) -> Option<Lead>
    ensures { result ≡ lead_at map.now at }
{
    let len = map.len();
    if len < at {
        return None;
    }
    let left = len - at;
    if left < 6 {
        return None;
    }
    let length = get32(map, at);
    if left - 6 < length {
        return None;
    }
    let kind = get16(map, at + 4);
    Some(Lead { kind, length })
}

// Where the entry behind the one at an offset stands; the end of the bytes, if that one is cut.
pub fn end_of(map: &[u8], at: usize) -> usize
    ensures { result ≡ behind_at map.now at }
{
    match lead_at(map, at) {
        Some(lead) => at + 6 + lead.length,
        None => map.len(),
    }
}
