// The static sides of a block, by its row.
// "for every static side (equal sides once), of a DynamicJumpi the false side only."
ghost use Rattle.std.specs.Prelude.{◌+◌, ◌≤◌, length};
ghost use Rattle.layout.specs.Parts.{row_place};
ghost use Rattle.layout.specs.Rows.{BLOCK};
ghost use Rattle.reachable.specs.Edges.{SidesOf};

use layout::row::{BlockType, block_at};

// The true side and the false side of the block at `address`, as far as it has them; none where no block starts.
pub fn sides(w: &[u8], address: usize) -> (Option<usize>, Option<usize>)
    requires { row_place address + BLOCK ≤ length w.now }
    ensures { SidesOf w.now address result.0 result.1 }
{
    let Some(block) = block_at(w, address) else {
        return (None, None);
    };
    match block {
        BlockType::Jump { to } => (Some(to), None),
        BlockType::Jumpi { to, other } => (Some(to), Some(other)),
        BlockType::DynamicJumpi { other } => (None, Some(other)),
        _ => (None, None),
    }
}
