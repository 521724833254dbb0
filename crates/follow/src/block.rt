// The blocks of a stored map, one after the other.
// "takes an answer, the code and such a log"
ghost use Rattle.std.specs.Prelude.{◌≡◌};
ghost use Rattle.reader.specs.Walks.{Walking};
ghost use Rattle.follow.specs.Blocks.{block_of, next_block, CanGo, GivesBlock, blocks_left};

use reader::{Entry, Fault, Step, next};

// A block's static sides: none, one, or two, of which both may be the same.
#[derive(Clone, Copy)]
pub enum Sides {
    Zero,
    One(usize),
    Two(usize, usize),
}

// Where a block's destinations stand: its static sides, then the 7s from an offset on.
#[derive(Clone, Copy)]
pub struct Named {
    pub sides: Sides,
    pub at: usize,
}

// A block: from its start to its end, its destinations, and the offset of its own entry.
#[derive(Clone, Copy)]
pub struct Block {
    pub start: usize,
    pub end: usize,
    pub named: Named,
    pub own: usize,
}

// The block of an entry that stands at an offset, with the offset behind it; none where the entry is another.
fn block_in(entry: Result<Entry, Fault>, own: usize, at: usize) -> Option<Block>
    ensures { result ≡ block_of entry own at }
{
    let (start, end, sides) = match entry {
        Ok(Entry::Terminate { start, end, .. }) => (start, end, Sides::Zero),
        Ok(Entry::DynamicJump { start, end, .. }) => (start, end, Sides::Zero),
        Ok(Entry::Jump { start, end, to }) => (start, end, Sides::One(to)),
        Ok(
            Entry::Jumpi {
                start,
                end,
                yes,
                no,
            },
        ) => (start, end, Sides::Two(yes, no)),
        Ok(Entry::DynamicJumpi { start, end, no, .. }) => (start, end, Sides::One(no)),
        _ => return None,
    };
    let named = Named { sides, at };
    Some(Block {
        start,
        end,
        named,
        own,
    })
}

// The first block from an offset on.
pub fn block_from(map: &[u8], from: usize) -> Option<Block>
    requires { Walking map.now from }
    ensures { next_block map.now from result }
{
    let mut at = from;
    while let Some(Step { entry, behind }) = next(map, at) {
        if let Some(block) = block_in(entry, at, behind) {
            return Some(block);
        }
        at = behind;
    }
    None
}

// The blocks of a map from an offset on.
#[derive(Clone, Copy)]
pub struct Blocks<'a> {
    pub map: &'a [u8],
    pub at: usize,
}

impl<'a> Iterator for Blocks<'a> {
    type Item = Block;

    ghost can_next = { CanGo };

    ghost next_gives = { GivesBlock };

    ghost remaining = { blocks_left };

    fn next(&mut self) -> Option<Block> {
        let block = block_from(self.map, self.at)?;
        self.at = block.named.at;
        Some(block)
    }
}
