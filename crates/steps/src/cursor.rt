// The parents of a block, one after the other: a number below `FOUND` is a link to a direct parent, any other a found one's record, and 0 is the end.
// "Its parents are fixed when it opens: those then stored for its block whose path's last block is then reached, in the order first stored."
// W and the code's length stay two parameters: a level holds W to write it too, so a struct of shared slices would be made for each call.
ghost use Rattle.std.specs.Prelude.{◌≡◌, ◌^◌, ◌<◌};
ghost use Rattle.layout.specs.Fields.{first_found_at};
ghost use Rattle.steps.specs.Cursors.{clipped, up_to, first_cursor, next_cursor, last_cursor, AtBlock, Cursor, Asks};

use layout::field::FIRST_FOUND;
use layout::record::{ENDS, NEXT, RECORD};
use layout::row::ROW;
use lent::{get16, get32};
use parents::link::{first_parent, next_parent, parent_start};

// The least number of a found parent: it and the record's index. A cursor is a number, since a link to a direct parent is one in its row, 0 for none: an enum would
// have to carry beside it that a link is below this number, which the test of the number tells.
pub const FOUND: usize = 0x1_0000;

// The cursor of a found parent, by a link to it, if it was there when the level opened.
fn clip(link: usize, opened: usize) -> usize
    requires { link < 2 ^ 32 }
    ensures { result ≡ clipped opened link }
{
    if link == 0 {
        return 0;
    }
    if opened < link {
        return 0;
    }
    FOUND + (link - 1)
}

// The link to a direct parent, if it is no higher than the highest that is reached: from there on none is.
fn up_to(highest: usize, link: usize) -> usize
    ensures { result ≡ up_to highest link }
{
    if link <= highest {
        return link;
    }
    0
}

// The first found parent of the block `start` that was there when the level opened.
fn first_found(w: &[u8], size: usize, start: usize, opened: usize) -> usize
    requires { AtBlock w.now size start }
    ensures { result ≡ clipped opened (first_found_at w.now size start) }
{
    clip(get32(w, ROW * (size + 1 + start) + FIRST_FOUND), opened)
}

// The first parent of the block `start`; of direct ones, up to the highest that is reached. Block, records and highest parent stay three numbers, which is plainer: the
// level reads each by itself, and would only build a struct to have it taken apart here.
pub fn first_cursor(w: &[u8], size: usize, start: usize, opened: usize, highest: usize) -> usize
    requires { AtBlock w.now size start }
    ensures { result ≡ first_cursor w.now size start opened highest }
{
    let link = up_to(highest, first_parent(w, start));
    if link != 0 {
        return link;
    }
    first_found(w, size, start, opened)
}

// The parent of `start` after the one at `at`.
pub fn next_cursor(
    w: &[u8],
    r: &[u8],
    size: usize,
    start: usize,
    opened: usize,
    highest: usize,
    at: usize,
) -> usize
    requires { (AtBlock w.now size start) × (Cursor w.now r.now size start at) }
    ensures { result ≡ next_cursor w.now r.now size start opened highest at }
{
    if FOUND <= at {
        return clip(get32(r, RECORD * (at - FOUND) + NEXT), opened);
    }
    // past the highest none is reached, and its row need not be read
    if at == highest {
        return first_found(w, size, start, opened);
    }
    let link = up_to(highest, next_parent(w, start, at));
    if link != 0 {
        return link;
    }
    first_found(w, size, start, opened)
}

// The last block of the path of the parent at `at`.
pub fn last_block(r: &[u8], q: &[u8], at: usize) -> usize
    requires { Asks r.now q.now at }
    ensures { result ≡ last_cursor r.now q.now at }
{
    if at < FOUND {
        return parent_start(at);
    }
    get16(q, 2 * (get32(r, RECORD * (at - FOUND) + ENDS) - 1))
}
