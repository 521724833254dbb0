// A body of `long` bytes from `at` on, as the kind has it; or its length is another than the kind says.
// "bodies longer or shorter than their kind says are bad"
// `wide` tells the family of the map's numbers, a fact that a result depends on: it chooses no step to run.
ghost use Rattle.std.specs.Prelude.{◌≡◌, ◌+◌, ◌≤◌, length, take, drop};
ghost use Rattle.spec.specs.Entries.{absent};
ghost use Rattle.spec.specs.Forms.{HEAD, BLOCK, WAY, RECORD, TERMINATE, JUMP, JUMPI, DYNAMIC-JUMP, DYNAMIC-JUMPI};
ghost use Rattle.reader.specs.Shapes.{path_of, shape};

use crate::dest::destined;
use crate::entry::{Entry, Fault};
use lent::{get8, get16, get32};

// Kind 1: code length, block count, record count, energy.
pub fn head(map: &[u8], at: usize, long: usize) -> Result<Entry, Fault>
    requires { at + long ≤ length map.now }
    ensures { result ≡ shape at HEAD (take long (drop at map.now)) }
{
    if long != 12 {
        return Err(Fault::Wrong);
    }
    Ok(Entry::Head {
        size: get16(map, at),
        blocks: get16(map, at + 2),
        records: get32(map, at + 4),
        energy: get32(map, at + 8),
    })
}

// Kind 2: start, end, success.
// `dynamic_jump` is alike by its length alone: another length is due, and another field is read, so one function for both would be no plainer.
pub fn terminate(map: &[u8], at: usize, long: usize) -> Result<Entry, Fault>
    requires { at + long ≤ length map.now }
    ensures { result ≡ shape at (BLOCK TERMINATE) (take long (drop at map.now)) }
{
    if long != 5 {
        return Err(Fault::Wrong);
    }
    Ok(Entry::Terminate {
        start: get16(map, at),
        end: get16(map, at + 2),
        success: get8(map, at + 4),
    })
}

// Kind 3: start, end, to.
pub fn jump(map: &[u8], at: usize, long: usize) -> Result<Entry, Fault>
    requires { at + long ≤ length map.now }
    ensures { result ≡ shape at (BLOCK JUMP) (take long (drop at map.now)) }
{
    if long != 6 {
        return Err(Fault::Wrong);
    }
    Ok(Entry::Jump {
        start: get16(map, at),
        end: get16(map, at + 2),
        to: get16(map, at + 4),
    })
}

// Kind 4: start, end, true, false.
pub fn jumpi(map: &[u8], at: usize, long: usize) -> Result<Entry, Fault>
    requires { at + long ≤ length map.now }
    ensures { result ≡ shape at (BLOCK JUMPI) (take long (drop at map.now)) }
{
    if long != 8 {
        return Err(Fault::Wrong);
    }
    Ok(Entry::Jumpi {
        start: get16(map, at),
        end: get16(map, at + 2),
        yes: get16(map, at + 4),
        no: get16(map, at + 6),
    })
}

// Kind 5: start, end, count.
// `terminate` is alike by its length alone, as is said there.
pub fn dynamic_jump(map: &[u8], at: usize, long: usize) -> Result<Entry, Fault>
    requires { at + long ≤ length map.now }
    ensures { result ≡ shape at (BLOCK DYNAMIC-JUMP) (take long (drop at map.now)) }
{
    if long != 8 {
        return Err(Fault::Wrong);
    }
    Ok(Entry::DynamicJump {
        start: get16(map, at),
        end: get16(map, at + 2),
        count: get32(map, at + 4),
    })
}

// Kind 6: start, end, false, count.
pub fn dynamic_jumpi(map: &[u8], at: usize, long: usize) -> Result<Entry, Fault>
    requires { at + long ≤ length map.now }
    ensures { result ≡ shape at (BLOCK DYNAMIC-JUMPI) (take long (drop at map.now)) }
{
    if long != 10 {
        return Err(Fault::Wrong);
    }
    Ok(Entry::DynamicJumpi {
        start: get16(map, at),
        end: get16(map, at + 2),
        no: get16(map, at + 4),
        count: get32(map, at + 6),
    })
}

// Where the path of a path entry stands, and how many addresses it has.
struct Path {
    at: usize,
    count: usize,
}

// The path of a body whose path length stands at `place` in it, and the path right behind that.
fn path_of(map: &[u8], at: usize, long: usize, place: usize) -> Result<Path, Fault>
    requires { (at + long ≤ length map.now) × (place ≤ 8) }
    ensures { result ≡ path_of at place (take long (drop at map.now)) }
{
    if long < place + 4 {
        return Err(Fault::Wrong);
    }
    let count = get32(map, at + place);
    if long != place + 4 + 2 * count {
        return Err(Fault::Wrong);
    }
    Ok(Path {
        at: at + place + 4,
        count,
    })
}

// Kind 7 or 10: to, path length, path.
pub fn way(map: &[u8], wide: bool, at: usize, long: usize) -> Result<Entry, Fault>
    requires { at + long ≤ length map.now }
    ensures { result ≡ shape at (WAY (absent wide)) (take long (drop at map.now)) }
{
    let Path { at: path, count } = path_of(map, at, long, 2)?;
    let to = destined(wide, get16(map, at));
    Ok(Entry::Way { to, path, count })
}

// Kind 8 or 11: start, to, path length, path.
pub fn record(map: &[u8], wide: bool, at: usize, long: usize) -> Result<Entry, Fault>
    requires { at + long ≤ length map.now }
    ensures { result ≡ shape at (RECORD 4 (absent wide)) (take long (drop at map.now)) }
{
    let Path { at: path, count } = path_of(map, at, long, 4)?;
    let start = get16(map, at);
    let to = destined(wide, get16(map, at + 2));
    Ok(Entry::Record {
        start,
        to,
        energy: None,
        path,
        count,
    })
}

// "kind 9: start, to, energy, path length, path", or 12.
pub fn numbered(map: &[u8], wide: bool, at: usize, long: usize) -> Result<Entry, Fault>
    requires { at + long ≤ length map.now }
    ensures { result ≡ shape at (RECORD 8 (absent wide)) (take long (drop at map.now)) }
{
    let Path { at: path, count } = path_of(map, at, long, 8)?;
    let start = get16(map, at);
    let to = destined(wide, get16(map, at + 2));
    let energy = get32(map, at + 4);
    Ok(Entry::Record {
        start,
        to,
        energy: Some(energy),
        path,
        count,
    })
}
