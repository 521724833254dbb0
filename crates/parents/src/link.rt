// The direct parents of each address, as a list that is linked through the rows.
// "each block with its own stack, for every static side (equal sides once), of a DynamicJumpi the false side only"
ghost use Rattle.std.specs.Prelude.{◌≡◌, ◌+◌, ◌*◌, ◌≤◌, length};
ghost use Rattle.layout.specs.Parts.{ROW, row_place};
ghost use Rattle.layout.specs.Rows.{numbers_at, first_at, start_of, next_at};
ghost use Rattle.parents.specs.Writes.{link, link_sides};
ghost use Rattle.parents.specs.Promises.{LinkRoom, Sides, Wrote, Number, Link};

use layout::row::{BlockType, FIRST, NEXT, NEXT_OTHER, ROW, TO, type_at};
use lent::{get16, put16};

// Puts a side of the block at `start` in front of the parents of `to`.
fn link(w: &mut [u8], start: usize, side: usize, to: usize)
    requires { LinkRoom w.old start side to }
    ensures { Wrote w.old w.new (link w.old start side to) }
{
    let first = get16(w, ROW * to + FIRST);
    put16(w, ROW * start + NEXT + 2 * side, first);
    put16(w, ROW * to + FIRST, start + 1);
}

// Puts every static side of the block at `start` in front of its parents: equal sides once, of a DynamicJumpi the false side only. A row with another byte
// than a kind's has none.
pub fn link_sides(w: &mut [u8], start: usize)
    requires { Sides w.old start }
    ensures { Wrote w.old w.new (link_sides w.old start (numbers_at w.old start)) }
{
    let numbers = type_at(w, start);
    if !numbers.is_known() {
        return;
    }
    let Some(block) = numbers.block() else {
        return;
    };
    match block {
        BlockType::Jump { to } => link(w, start, 0, to),
        BlockType::Jumpi { to, other } => {
            if to == other {
                return link(w, start, 0, to);
            }
            link(w, start, 1, other);
            link(w, start, 0, to);
        }
        BlockType::DynamicJumpi { other } => link(w, start, 1, other),
        _ => {}
    }
}

// The link to the first parent of `to`. A link stays a number, 0 for none: the search's cursor has it, or a record's number, in one word, in its innermost
// loop.
pub fn first_parent(w: &[u8], to: usize) -> usize
    requires { row_place to + ROW ≤ length w.now }
    ensures { Number result (first_at w.now to) 2 }
{
    get16(w, ROW * to + FIRST)
}

// The start of the block that a link leads to.
pub fn parent_start(link: usize) -> usize
    requires { 1 ≤ link }
    ensures { result ≡ start_of link }
{
    link - 1
}

// The link to the parent of `to` after the one that a link leads to: past its true side, if this is `to`, else past its false side.
pub fn next_parent(w: &[u8], to: usize, link: usize) -> usize
    requires { Link w.now link }
    ensures { Number result (next_at w.now to link) 2 }
{
    let at = ROW * (link - 1);
    if get16(w, at + TO) == to {
        return get16(w, at + NEXT);
    }
    get16(w, at + NEXT_OTHER)
}
