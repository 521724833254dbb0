// The entry that stands at an offset of the bytes, by value.
ghost use Rattle.std.specs.Prelude.{◌≡◌};
ghost use Rattle.reader.specs.Shapes.{entry_at};

use crate::body::{
    dynamic_jump, dynamic_jumpi, head, jump, jumpi, numbered, record, terminate, way,
};
use crate::kind::{Sort, sort_of, wide_in};
use crate::lead::lead_at;

// A path's place and its length are two fields, as the definitions' entries have them: a struct would be opened again by each of those who read one.
// Its numbers, by its kind; the two families of kinds give the same. A path is told by where its addresses of 2 bytes stand and how many they are.
// A record has its number in kind 9, and none in kind 8.
#[derive(Clone, Copy)]
pub enum Entry {
    Head {
        size: usize,
        blocks: usize,
        records: usize,
        energy: usize,
    },
    Terminate {
        start: usize,
        end: usize,
        success: usize,
    },
    Jump {
        start: usize,
        end: usize,
        to: usize,
    },
    Jumpi {
        start: usize,
        end: usize,
        yes: usize,
        no: usize,
    },
    DynamicJump {
        start: usize,
        end: usize,
        count: usize,
    },
    DynamicJumpi {
        start: usize,
        end: usize,
        no: usize,
        count: usize,
    },
    Way {
        to: Option<usize>,
        path: usize,
        count: usize,
    },
    Record {
        start: usize,
        to: Option<usize>,
        energy: Option<usize>,
        path: usize,
        count: usize,
    },
}

// What is wrong with an entry by itself: its kind is not known, its body is "longer or shorter than" its kind says, or it is cut.
// Three faults, the error of a Result, and none the lack of another.
#[derive(Clone, Copy)]
pub enum Fault {
    Unknown,
    Wrong,
    Cut,
}

// The entry at an offset, or what is wrong with it by itself.
pub fn entry_at(map: &[u8], at: usize) -> Result<Entry, Fault>
    ensures { result ≡ entry_at map.now at }
{
    let Some(lead) = lead_at(map, at) else {
        return Err(Fault::Cut);
    };
    let body = at + 6;
    let long = lead.length;
    let wide = wide_in(map);
    match sort_of(wide, lead.kind) {
        Some(Sort::Head) => head(map, body, long),
        Some(Sort::Terminate) => terminate(map, body, long),
        Some(Sort::Jump) => jump(map, body, long),
        Some(Sort::Jumpi) => jumpi(map, body, long),
        Some(Sort::DynamicJump) => dynamic_jump(map, body, long),
        Some(Sort::DynamicJumpi) => dynamic_jumpi(map, body, long),
        Some(Sort::Way) => way(map, wide, body, long),
        Some(Sort::Record) => record(map, wide, body, long),
        Some(Sort::Numbered) => numbered(map, wide, body, long),
        None => Err(Fault::Unknown),
    }
}
