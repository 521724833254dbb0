// The rows that a block lists, along their links.
// "It must name the same blocks, paths and destinations as the entries, and no other"
ghost use Rattle.std.specs.Prelude.{[], ◌∷◌, ◌+◌, ◌*◌, ◌^◌, ◌≤◌};
ghost use Rattle.spec.specs.Lists.{keep};
ghost use Rattle.layout.specs.Rows.{tag_of};
ghost use Rattle.output.specs.Promises.{PutsFew};
ghost use Rattle.entries.specs.Rows.{steps_of, listed, chosen};
ghost use Rattle.entries.specs.Promises.{RowsIn, LinkedAt};
ghost use Rattle.json_text.specs.Rows.{lined, next, way_text};
ghost use Rattle.json_text.specs.Promises.{PutsWay};

use crate::comma::add_comma;
use crate::way::add_way;
use entries::found::Found;
use layout::row::BlockType;
use output::Output;

// A row, if a block of the type lists it.
fn add_row(found: &Found<'_>, begin: usize, row: usize, block: BlockType, output: &mut Output<'_>)
    requires { PutsWay found.now.r.now found.now.q.now row output.old.end 23 }
    ensures { PutsFew (23 + 6 * steps_of found.now.r.now row) output.old
        (next begin output.old.end (way_text found.now.r.now found.now.q.now) (keep (listed found.now.r.now (tag_of block)) (row ∷ []))) output.new }
{
    if found.is_listed(row, block.numbers().kind) {
        add_comma(begin, output);
        add_way(found, row, output);
    }
}

// All that the block at `start` lists.
pub fn add_ways(found: &Found<'_>, start: usize, block: BlockType, output: &mut Output<'_>)
    requires { (LinkedAt found.now.size found.now.rows found.now.w.now found.now.r.now start)
        × (RowsIn found.now.r.now found.now.q.now found.now.rows) × (output.old.end ≤ 2 ^ 61) }
    ensures { PutsFew (2 ^ 36) output.old
        (lined (way_text found.now.r.now found.now.q.now) (chosen found.now.r.now found.now.rows start (tag_of block))) output.new }
{
    let begin = output.end;
    let mut next = found.first_row(start);
    while let Some(row) = next {
        add_row(found, begin, row, block, output);
        next = found.next_row(row);
    }
}
