// The graph: blocks, edges, and what is reached.
// "prunes to blocks reached from 0"
ghost use Rattle.graph.specs.Promises.{Graphs, Graphed};

use crate::merge::merge_all;
use crate::rewrite::rewrite;
use reachable::prune;

// Merges the blocks of a code of `size` bytes by the records, makes rows of edges of these, and flags what is reached. The answer is how many addresses
// are flagged. The buffers stay apart, since each step writes one of them and reads others.
// So do W and the code's length: a struct of both would be made anew for each step that writes W.
pub fn graph(w: &mut [u8], r: &mut [u8], q: &[u8], size: usize, records: usize) -> usize
    requires { Graphs size records w.old r.old q.now }
    ensures { Graphed size records w.old r.old q.now w.new r.new result }
{
    merge_all(w, size, r, records);
    rewrite(w, r, q, records);
    prune(w, size, r, records)
}
