// The records become rows of edges, in place: start, destination of the edge, the path's last block, the record's own destination, room for two links, and
// the end of the path.
// "Pruning follows a dynamic entry only if its path's last block is reached too"
// The buffers stay apart: W and Q are lent to be read, so they do not change by their types, which a struct of all three would have to promise.
ghost use Rattle.std.specs.Prelude.{◌+◌, ◌*◌, ◌≤◌, ◌<◌, length};
ghost use Rattle.layout.specs.Parts.{ROW, row_place};
ghost use Rattle.layout.specs.Records.{RECORD, record_place};
ghost use Rattle.graph.specs.Promises.{EdgeIs, EdgePut, RewritesRow, RewroteRow, Rewrites, Rewrote};

use crate::kind::is_dynamic_jump;
use layout::record::RECORD;
use layout::{NOWHERE, edge, record};
use lent::{get16, get32, put16, put32};

// Rewrites the records.
pub fn rewrite(w: &[u8], r: &mut [u8], q: &[u8], records: usize)
    requires { Rewrites records w.now r.old q.now }
    ensures { Rewrote records w.now r.old q.now r.new }
{
    for row in 0..records {
        rewrite_row(w, r, q, row);
    }
}

// Rewrites a record.
fn rewrite_row(w: &[u8], r: &mut [u8], q: &[u8], row: usize)
    requires { RewritesRow w.now r.old q.now row }
    ensures { RewroteRow w.now r.old q.now row r.new }
{
    let at = RECORD * row;
    let start = get16(r, at);
    let to = get16(r, at + record::TO);
    let end = get32(r, at + record::ENDS);
    let last = get16(q, 2 * (end - 1));
    let edge = edge_to(w, start, to);
    put_edge(r, row, edge, last, to, end);
}

// Stores the fields of a row.
fn put_edge(r: &mut [u8], row: usize, to: usize, last: usize, own: usize, end: usize)
    requires row_in_bounds { record_place row + RECORD ≤ length r.old }
    requires to_bound { (to < 65536) × (last < 65536) × (own < 65536) × (end < 4294967296) }
    ensures { EdgePut r.old row to last own end r.new }
{
    let at = RECORD * row;
    put16(r, at + edge::TO, to);
    put16(r, at + edge::WITNESS, last);
    put16(r, at + edge::OWN, own);
    put32(r, at + edge::ENDS, end);
}

// The destination, if the block at `start` is still a DynamicJump.
fn edge_to(w: &[u8], start: usize, to: usize) -> usize
    requires start_in_bounds { row_place start + ROW ≤ length w.now }
    requires to_bound { to < 65536 }
    ensures { EdgeIs w.now start to result }
{
    if is_dynamic_jump(w, start) {
        to
    } else {
        NOWHERE
    }
}
