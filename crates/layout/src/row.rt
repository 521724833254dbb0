// The rows of W: one of 20 bytes for the block of each address from 0 to the code's length.
// "`id` equals `start`; that is proved."
ghost use Rattle.std.specs.Prelude.{◌≡◌, ◌+◌, ◌≤◌, leb, length};
ghost use Rattle.layout.specs.Parts.{row_place};
ghost use Rattle.layout.specs.Rows.{BLOCK, tag_of, numbers_of, read_as, Put, TypeIs, PutBlock, BlockIs};

use lent::{get8, get16, put16};

// The bytes of a row.
pub const ROW: usize = 20;

// Where its fields stand; the kind is first, in two bytes of which the second is 0.
pub const END: usize = 2;

pub const TO: usize = 4;

pub const OTHER: usize = 6;

// The position that is asked for, the link to the address's first parent, those of its block's two sides, and an entry of the array of those that take turns:
// row i has entry i, whichever block that is.
pub const POSITION: usize = 8;

pub const FIRST: usize = 12;

pub const NEXT: usize = 14;

pub const NEXT_OTHER: usize = 16;

pub const TAKER: usize = 18;

// The byte of each kind; 0 where no block starts. docs/LAYOUT.md has these bytes; elsewhere only what takes a kind by its number reads one.
pub const TERMINATE: usize = 1;

pub const SUCCESS: usize = 2;

pub const JUMP: usize = 3;

pub const JUMPI: usize = 4;

pub const DYNAMIC_JUMP: usize = 5;

pub const DYNAMIC_JUMPI: usize = 6;

// A block's type as its row has it: the kind's byte, where it goes (the true side), and its false side; a side that the kind does not have is 0.
#[derive(Clone, Copy, PartialEq, Eq)]
pub struct RowType {
    pub kind: usize,
    pub to: usize,
    pub other: usize,
}

// A block's type: where it goes (the true side), and its false side, as far as it has them.
#[derive(Clone, Copy, PartialEq, Eq)]
pub enum BlockType {
    Terminate { success: bool },
    Jump { to: usize },
    Jumpi { to: usize, other: usize },
    DynamicJump,
    DynamicJumpi { other: usize },
}

impl RowType {
    // Is the byte a kind's, or 0?
    pub fn is_known(self) -> bool
        ensures { result ≡ leb self.kind 6 }
    {
        self.kind <= DYNAMIC_JUMPI
    }

    // The type that the numbers say. A byte that is no other kind's stands for DynamicJumpi.
    pub fn block(self) -> Option<BlockType>
        ensures { result ≡ read_as self.kind self.to self.other }
    {
        match self.kind {
            0 => None,
            TERMINATE => Some(BlockType::Terminate { success: false }),
            SUCCESS => Some(BlockType::Terminate { success: true }),
            JUMP => Some(BlockType::Jump { to: self.to }),
            JUMPI => Some(BlockType::Jumpi {
                to: self.to,
                other: self.other,
            }),
            DYNAMIC_JUMP => Some(BlockType::DynamicJump),
            _ => Some(BlockType::DynamicJumpi { other: self.other }),
        }
    }
}

impl BlockType {
    // What a row says of the type.
    pub fn numbers(self) -> RowType
        ensures { result ≡ numbers_of self }
    {
        match self {
            BlockType::Terminate { success: false } => RowType {
                kind: TERMINATE,
                to: 0,
                other: 0,
            },
            BlockType::Terminate { success: true } => RowType {
                kind: SUCCESS,
                to: 0,
                other: 0,
            },
            BlockType::Jump { to } => RowType {
                kind: JUMP,
                to,
                other: 0,
            },
            BlockType::Jumpi { to, other } => RowType {
                kind: JUMPI,
                to,
                other,
            },
            BlockType::DynamicJump => RowType {
                kind: DYNAMIC_JUMP,
                to: 0,
                other: 0,
            },
            BlockType::DynamicJumpi { other } => RowType {
                kind: DYNAMIC_JUMPI,
                to: 0,
                other,
            },
        }
    }

    // Does only a run say where it goes?
    pub fn is_dynamic(self) -> bool
        ensures { result ≡ leb 5 (tag_of self) }
    {
        matches!(
            self,
            BlockType::DynamicJump | BlockType::DynamicJumpi { .. }
        )
    }
}

// Writes the block that starts at `start`, its type by numbers.
// `end` is where the block's last instruction stands, which the row says: it is no length of W.
pub fn put_block(w: &mut [u8], start: usize, end: usize, block: RowType)
    requires { row_place start + BLOCK ≤ length w.old }
    ensures { Put w.old start end block w.new }
{
    let at = ROW * start;
    put16(w, at, block.kind);
    put16(w, at + END, end);
    put16(w, at + TO, block.to);
    put16(w, at + OTHER, block.other);
}

// Writes the block that starts at `start`.
pub fn write_block(w: &mut [u8], start: usize, end: usize, block: BlockType)
    requires { row_place start + BLOCK ≤ length w.old }
    ensures { PutBlock w.old start end block w.new }
{
    put_block(w, start, end, block.numbers());
}

// The numbers that the row of `start` says of a type, whatever they are.
pub fn type_at(w: &[u8], start: usize) -> RowType
    requires { row_place start + BLOCK ≤ length w.now }
    ensures { TypeIs w.now start result }
{
    let at = ROW * start;
    RowType {
        kind: get8(w, at),
        to: get16(w, at + TO),
        other: get16(w, at + OTHER),
    }
}

// The type of the block that starts at `start`, if one does.
pub fn block_at(w: &[u8], start: usize) -> Option<BlockType>
    requires { row_place start + BLOCK ≤ length w.now }
    ensures { BlockIs w.now start result }
{
    type_at(w, start).block()
}
