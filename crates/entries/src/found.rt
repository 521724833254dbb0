// What the search left in the lent buffers, as it is read to be written: the blocks in W, their rows in R, and the paths of these in Q.
// "At the end DynamicJump drops entries without destination; DynamicJumpi keeps them."
ghost use Rattle.std.specs.Prelude.{◌≡◌, ◌+◌, ◌≤◌, length};
ghost use Rattle.layout.specs.Edges.{link_at};
ghost use Rattle.layout.specs.Fields.{head_at};
ghost use Rattle.layout.specs.Records.{RECORD, record_place};
ghost use Rattle.layout.specs.Rows.{tag_at};
ghost use Rattle.reachable.specs.Promises.{Address};
ghost use Rattle.entries.specs.Rows.{kept, listed};
ghost use Rattle.entries.specs.Links.{link_of};
ghost use Rattle.entries.specs.Promises.{GoalOf, PathsEnd, PathOf, RowIn};

use layout::NOWHERE;
use layout::edge::{ENDS, LINKS, OWN};
use layout::field::HEADS;
use layout::record::RECORD;
use layout::row::{DYNAMIC_JUMP, ROW};
use lent::{get16, get32};
use reachable::is_flagged;

// The three buffers, how long the code is, how many rows R has, how many starts of blocks the list in W, and how many addresses are flagged.
#[derive(Clone, Copy)]
pub struct Found<'a> {
    pub w: &'a [u8],
    pub r: &'a [u8],
    pub q: &'a [u8],
    pub size: usize,
    pub rows: usize,
    pub blocks: usize,
    pub flags: usize,
}

// Where a path stands in Q, in addresses.
#[derive(Clone, Copy)]
pub struct Span {
    pub from: usize,
    pub steps: usize,
}

// The row that a link leads to, if it leads to one: the link is the row's number and 1 more. `reachable` reads links by either key while it writes them, these are read by
// the place alone and from what is only lent to be read: one for both would be no plainer.
fn row_of(link: usize) -> Option<usize>
    ensures { link_of result ≡ link }
{
    if link == 0 { None } else { Some(link - 1) }
}

impl Found<'_> {
    // Is the block that starts there reached?
    pub fn is_kept(&self, start: usize) -> bool
        requires { (Address self.now.size self.now.w.now start) × (tag_at self.now.w.now start ≡ 0 → ⊥) }
        ensures { result ≡ kept self.now.w.now self.now.size start }
    {
        is_flagged(self.w, self.size, start)
    }

    // The first row of the block at `start`, if it has one.
    pub fn first_row(&self, start: usize) -> Option<usize>
        requires { Address self.now.size self.now.w.now start }
        ensures { link_of result ≡ head_at self.now.w.now self.now.size 0 start }
    {
        row_of(get32(self.w, ROW * (self.size + 1 + start) + HEADS))
    }

    // The next row of the same block after a row, if there is one.
    pub fn next_row(&self, row: usize) -> Option<usize>
        requires { record_place row + RECORD ≤ length self.now.r.now }
        ensures { link_of result ≡ link_at self.now.r.now 0 row }
    {
        row_of(get32(self.r, RECORD * row + LINKS))
    }

    // The destination of a row, if it has one.
    pub fn goal_of(&self, row: usize) -> Option<usize>
        requires { record_place row + RECORD ≤ length self.now.r.now }
        ensures { GoalOf self.now.r.now row result }
    {
        let to = get16(self.r, RECORD * row + OWN);
        if to == NOWHERE { None } else { Some(to) }
    }

    // Does a block of the kind list a row? A DynamicJump lists those with a destination.
    pub fn is_listed(&self, row: usize, kind: usize) -> bool
        requires { record_place row + RECORD ≤ length self.now.r.now }
        ensures { result ≡ listed self.now.r.now kind row }
    {
        if kind != DYNAMIC_JUMP {
            return true;
        }
        self.goal_of(row).is_some()
    }

    // Where the paths before a row end in Q, in addresses: what `tables::end_before` reads of a record, which has it elsewhere (docs/LAYOUT.md).
    pub fn begin_of(&self, row: usize) -> usize
        requires { record_place row ≤ length self.now.r.now }
        ensures { PathsEnd self.now.r.now row result }
    {
        if row == 0 {
            return 0;
        }
        get32(self.r, RECORD * (row - 1) + ENDS)
    }

    // The path of a row: it ends where those before the next row do.
    pub fn path_of(&self, row: usize) -> Span
        requires { RowIn self.now.r.now self.now.q.now row }
        ensures { PathOf self.now.r.now row result }
    {
        let from = self.begin_of(row);
        Span {
            from,
            steps: self.begin_of(row + 1) - from,
        }
    }
}
