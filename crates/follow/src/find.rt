// The block that starts at an address.
// "walks it block by block"
ghost use Rattle.std.specs.Prelude.{◌<◌};
ghost use Rattle.follow.specs.Finding.{Ready, Indexed, Finds, found_in};

use crate::block::{Block, Blocks, block_from};
use crate::place::many;
use lent::get64;

// A block, with the place of its count among all counts.
#[derive(Clone, Copy)]
pub struct Counted {
    pub block: Block,
    pub slot: usize,
}

// A map, and the index of it that stands in `work`, if it has one: so many rows of blocks, and the edges behind them.
#[derive(Clone, Copy)]
pub struct Finder<'a> {
    pub map: &'a [u8],
    pub work: &'a [u8],
    pub rows: Option<usize>,
}

// Looks for it from the first block on.
fn scan(map: &[u8], start: usize) -> Option<Counted>
    requires { Ready map.now }
    ensures { found_in map.now start result }
{
    let mut slot = 0;
    for block in (Blocks { map, at: 0 }) {
        if block.start == start {
            return Some(Counted { block, slot });
        }
        slot += 1 + many(map, block.named);
    }
    None
}

impl Finder<'_> {
    // Reads the row of an address.
    fn row(self, rows: usize, start: usize) -> Option<Counted>
        requires indexed { Indexed self.map.now self.work.now rows }
        requires start_lt_rows { start < rows }
        ensures { found_in self.entry.map.now start result }
    {
        let own = get64(self.work, 16 * start).checked_sub(1)?;
        let slot = get64(self.work, 16 * start + 8);
        let block = block_from(self.map, own)?;
        Some(Counted { block, slot })
    }

    // The block that starts at an address: by the index, where there is one; else by looking for it.
    pub fn find(self, start: usize) -> Option<Counted>
        requires { Finds self }
        ensures { found_in self.entry.map.now start result }
    {
        let Some(rows) = self.rows else {
            return scan(self.map, start);
        };
        if rows <= start {
            return None;
        }
        self.row(rows, start)
    }
}
