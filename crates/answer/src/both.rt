// The answer, and the JSON text of its blocks beside it.
// `map_code` stays beside it, and would be no plainer as a case of this: without a text there is no 11, and nothing is counted for one.
// "A call that does what the entry does and also fills a text buffer"
ghost use Rattle.std.specs.Prelude.{◌≡◌};
ghost use Rattle.layout.specs.Buffers.{held};
ghost use Rattle.enter.specs.Lent.{StillLent};
ghost use Rattle.answer.specs.Told.{found_of, told_both};
ghost use Rattle.answer.specs.Promises.{Holds, PutBoth, MappedBoth};

use crate::early::early;
use crate::find::{Finding, find};
use crate::map::wipe_rooms;
use entries::found::Found;
use json_text::{text_fits, write_text};
use layout::buffers::Buffers;
use lent::units;
use refusal::{Refusal, Shortage};

// How many bytes were written, of entries and of text.
#[derive(Clone, Copy)]
pub struct Written {
    pub entries: usize,
    pub text: usize,
}

// Writes both, where both have room. "11, text room short, last": the entries are counted before it is answered; a refusal leaves both as they were.
// `Found` is built here, behind the `?`, as in `put`.
fn put_both(
    w: &[u8],
    r: &[u8],
    q: &[u8],
    size: usize,
    finding: Result<Finding, Shortage>,
    choice: usize,
    out: &mut [u8],
    text: &mut [u8],
) -> Result<Written, Refusal>
    requires { (found_of finding).code ≡ 0 → Holds w.now r.now q.now size (found_of finding) }
    ensures { PutBoth w.now r.now q.now size (found_of finding) choice out.old out.new text.old text.new (told_both result) }
{
    let finding = finding?;
    let found = Found {
        w,
        r,
        q,
        size,
        rows: finding.records,
        blocks: finding.blocks,
        flags: finding.flags,
    };
    if !text_fits(&found, units(text.len(), 1)) {
        if !found.entries_fit(choice, units(out.len(), 1)) {
            return Err(Refusal::Output);
        }
        return Err(Refusal::Text);
    }
    let Some(entries) = found.write_entries(finding.energy, choice, out) else {
        return Err(Refusal::Output);
    };
    let text = write_text(&found, text);
    Ok(Written { entries, text })
}

// "A call that does what the entry does and also fills a text buffer": as `map_code`, with an eighth lent buffer.
pub fn map_json(
    limit: usize,
    choice: usize,
    mode: usize,
    code: &[u8],
    buffers: &mut Buffers<'_>,
    out: &mut [u8],
    text: &mut [u8],
) -> Result<Written, Refusal>
    ensures lent { StillLent buffers.old buffers.new }
    ensures mapped { MappedBoth limit choice mode code.now (held buffers.old) out.old text.old (held buffers.new) out.new text.new (told_both result) }
{
    let lent = buffers.w.len();
    // Not by `?`, behind which the proof does not see which refusal is handed on.
    let taken = match early(code.len(), limit, mode, lent) {
        Ok(taken) => taken,
        Err(refusal) => return Err(refusal),
    };
    let finding = find(limit, taken, code, buffers);
    let w = &mut *buffers.w;
    let r = &mut *buffers.r;
    let q = &mut *buffers.q;
    let answer = put_both(w, r, q, code.len(), finding, choice, out, text);
    wipe_rooms(buffers);
    answer
}
