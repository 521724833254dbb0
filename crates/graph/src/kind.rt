// Which blocks the records can change.
// "A DynamicJump whose entries share one target becomes a Jump."
ghost use Rattle.std.specs.Prelude.{◌≡◌, ◌+◌, ◌≤◌, eqb, length};
ghost use Rattle.layout.specs.Parts.{ROW, row_place};
ghost use Rattle.layout.specs.Rows.{tag_at, tag_of};

use layout::row::{BlockType, block_at};

// Is the type a DynamicJump?
fn is_jump(block: BlockType) -> bool
    ensures { result ≡ eqb (tag_of block) 5 }
{
    matches!(block, BlockType::DynamicJump)
}

// Does a DynamicJump start at `start`?
pub fn is_dynamic_jump(w: &[u8], start: usize) -> bool
    requires { row_place start + ROW ≤ length w.now }
    ensures { result ≡ eqb (tag_at w.now start) 5 }
{
    match block_at(w, start) {
        Some(block) => is_jump(block),
        None => false,
    }
}
