// The blocks that are kept, in the order of their starts.
// "It must name the same blocks, paths and destinations as the entries, and no other"
ghost use Rattle.std.specs.Prelude.{◌≡◌, [], ◌∷◌, ◌+◌, ◌^◌, ◌≤◌};
ghost use Rattle.spec.specs.Lists.{keep};
ghost use Rattle.layout.specs.Rows.{tag_at};
ghost use Rattle.initial.specs.Rows.{Listed};
ghost use Rattle.output.specs.Promises.{PutsFew};
ghost use Rattle.entries.specs.Rows.{kept, kept_below};
ghost use Rattle.entries.specs.Promises.{PutsBlock, PutsBlocks};
ghost use Rattle.json_text.specs.Rows.{lined, next, block_text};

use crate::block::add_block;
use crate::comma::add_comma;
use entries::found::Found;
use initial::start_at;
use output::Output;

// The block at `start`, if it is kept.
fn add_kept(found: &Found<'_>, begin: usize, start: usize, output: &mut Output<'_>)
    requires { (PutsBlock found.now.size found.now.rows found.now.w.now found.now.r.now found.now.q.now start output.old.end)
        × (tag_at found.now.w.now start ≡ 0 → ⊥) × (output.old.end + 1 ≤ 2 ^ 60) }
    ensures { PutsFew (2 ^ 37) output.old
        (next begin output.old.end (block_text found.now.w.now found.now.r.now found.now.q.now found.now.rows) (keep (kept found.now.w.now found.now.size) (start ∷ []))) output.new }
{
    if found.is_kept(start) {
        add_comma(begin, output);
        add_block(found, start, output);
    }
}

// All that are kept, along the list of their starts.
// `entries` has the same walk: tried as one, but a closure that changes what it captures leaves the proof nothing of what was put.
pub fn add_blocks(found: &Found<'_>, output: &mut Output<'_>)
    requires { (PutsBlocks found.now.size found.now.rows found.now.w.now found.now.r.now found.now.q.now output.old.end)
        × (Listed found.now.size found.now.w.now found.now.blocks) × (output.old.end ≤ 2 ^ 32) }
    ensures { PutsFew (2 ^ 53) output.old
        (lined (block_text found.now.w.now found.now.r.now found.now.q.now found.now.rows) (kept_below found.now.w.now found.now.size (found.now.size + 1))) output.new }
{
    let begin = output.end;
    for i in 0..found.blocks {
        add_kept(found, begin, start_at(found.w, found.size, i), output);
    }
}
