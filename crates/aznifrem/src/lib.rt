// The exported calls; `aznifrem_c` exports them to C.
// "A call returns the number and the bytes written, 0 if refused; the exported entry gives whichever isn't 0. The exported entry takes numbers and byte
// slices."
#![tactic(auto)]

mod archive;
mod release;
mod second;
mod told;
mod trace;

ghost use Rattle.std.specs.Prelude.{◌≡◌};
ghost use Rattle.spec.specs.Reader as definitions;
ghost use Rattle.spec.specs.Reader.{reads_as};
ghost use Rattle.reader.specs.Scanning.{reading_of};
ghost use Rattle.aznifrem.specs.Told.{refusing};
ghost use Rattle.layout.specs.Buffers.{buffers};
ghost use Rattle.answer.specs.Told.{told, told_both};
ghost use Rattle.aznifrem.specs.Promises.{Gives, Exported, Few, GivesBoth, ExportedJson};

use answer::{Written, map_code, map_json};
pub use archive::aznifrem_salvage;
use layout::buffers::Buffers;
use reader::read;
use refusal::Refusal;
pub use release::{aznifrem_report_add, aznifrem_report_join};
pub use second::{aznifrem_inspect, aznifrem_inspect_from};
use told::told_of;
pub use trace::aznifrem_follow;

// Maps a code at an energy limit, in mode 0 or 1, over seven lent buffers; gives the number of the refusal, or the bytes written, which are never under 18
// (`answered-long`). With choice 0 the records have their numbers: "written as a new record kind 9: start, to, energy, path length, path. Kind 8 is still
// written if the caller's choice number is not 0".
pub fn aznifrem_map(
    limit: u64,
    choice: u64,
    mode: u64,
    code: &[u8],
    w: &mut [u8],
    p: &mut [u8],
    s: &mut [u8],
    t: &mut [u8],
    r: &mut [u8],
    q: &mut [u8],
    out: &mut [u8],
) -> u64
    ensures { Exported limit choice mode code.now (buffers w.old p.old s.old t.old r.old q.old)
        out.old (buffers w.new p.new s.new t.new r.new q.new) out.new result }
{
    let mut buffers = Buffers { w, p, s, t, r, q };
    given(map_code(
        limit as usize,
        choice as usize,
        mode as usize,
        code,
        &mut buffers,
        out,
    ))
}

// "the exported entry gives whichever isn't 0"
fn given(answer: Result<usize, Refusal>) -> u64
    ensures { Gives (told answer) result }
{
    match answer {
        Ok(written) => written as u64,
        Err(refusal) => refusal.number() as u64,
    }
}

// The same, and the JSON text of the blocks in an eighth lent buffer; gives the number of the refusal, or the bytes of entries and 2^32 times those of text
// (`json-number`).
pub fn aznifrem_json(
    limit: u64,
    choice: u64,
    mode: u64,
    code: &[u8],
    w: &mut [u8],
    p: &mut [u8],
    s: &mut [u8],
    t: &mut [u8],
    r: &mut [u8],
    q: &mut [u8],
    out: &mut [u8],
    text: &mut [u8],
) -> u64
    ensures { ExportedJson limit choice mode code.now (buffers w.old p.old s.old t.old r.old q.old)
        out.old text.old (buffers w.new p.new s.new t.new r.new q.new)
        out.new text.new result }
{
    let mut buffers = Buffers { w, p, s, t, r, q };
    given_both(map_json(
        limit as usize,
        choice as usize,
        mode as usize,
        code,
        &mut buffers,
        out,
        text,
    ))
}

// The number, or both counts as one.
fn given_both(answer: Result<Written, Refusal>) -> u64
    requires { Few (told_both answer) }
    ensures { GivesBoth (told_both answer) result }
{
    match answer {
        Ok(written) => (written.entries + 4294967296 * written.text) as u64,
        Err(refusal) => given(Err(refusal)),
    }
}

// Judges a byte string as a stored map.
fn reading(map: &[u8]) -> Result<(), Refusal>
    ensures { result ≡ refusing (reading_of (definitions.read map.now)) }
{
    read(map)?;
    Ok(())
}

// Judges a byte string as a stored map: 0 where it holds one, else 12 and 256 times the offset of its first bad entry (`told`).
pub fn aznifrem_read(map: &[u8]) -> u64
    ensures { result ≡ reads_as (definitions.read map.now) }
{
    told_of(reading(map))
}
