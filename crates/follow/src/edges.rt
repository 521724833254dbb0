// The index of edges, behind the rows of blocks: with it an edge is taken in one step, however many destinations its block has.
// "how often each outgoing edge was taken"
ghost use Rattle.std.specs.Prelude.{◌≡◌, ◌+◌, ◌*◌, ◌^◌, ◌<◌, ◌≤◌, ◌&&◌, length, ◌==◌};
ghost use Rattle.lent.specs.Bytes.{num_at};
ghost use Rattle.reader.specs.Walks.{Walking};
ghost use Rattle.follow.specs.Finding.{Table, Finds};
ghost use Rattle.follow.specs.Stepping.{Stood};
ghost use Rattle.follow.specs.Edges.{shelf_in, Looked, Known, Entered, Inserted, Kept, Owned, Linked, PlaceSo};

use crate::block::Named;
use crate::find::{Counted, Finder};
use crate::place::{Distinct, seek};
use lent::{get64, put64};

// An edge: one more than the place of its block's count, and its destination.
#[derive(Clone, Copy)]
pub struct Edge {
    pub key: usize,
    pub to: usize,
}

// Which of so many shelves. Any would be right; this one spreads the edges.
fn spread(edge: Edge, shelves: usize) -> usize
    requires { 0 < shelves }
    ensures { result < shelves }
{
    let mixed = (edge.key % 65536 * 65536 + edge.to % 65536) * 2654435769;
    mixed / 65536 % shelves
}

// Where the 16 entries of an edge's shelf begin; none where there is no room for so many. Shelves overlap: one begins with each entry of 24 bytes.
fn shelf_of(long: usize, rows: usize, edge: Edge) -> Option<usize>
    requires { 16 * rows ≤ long }
    ensures { shelf_in long rows result }
{
    let base = 16 * rows;
    let entries = (long - base) / 24;
    if entries < 16 {
        return None;
    }
    let shelf = spread(edge, entries - 15);
    Some(base + 24 * shelf)
}

// Whether an entry is the edge's.
fn is_of(work: &[u8], at: usize, edge: Edge) -> bool
    requires { at + 24 ≤ length work.now }
    ensures { result ≡ (num_at 8 work.now at == edge.key && num_at 8 work.now (at + 8) == edge.to) }
{
    get64(work, at) == edge.key && get64(work, at + 8) == edge.to
}

// The edge's place, where it stands on its shelf.
fn look(work: &[u8], shelf: usize, edge: Edge) -> Option<usize>
    requires { shelf + 384 ≤ length work.now }
    ensures { Looked work.now shelf edge.key edge.to result }
{
    for i in 0..16 {
        let at = shelf + 24 * i;
        if is_of(work, at, edge) {
            return get64(work, at + 16).checked_sub(1);
        }
    }
    None
}

// The same, where there is an index.
fn known(finder: Finder, edge: Edge) -> Option<usize>
    requires { Finds finder }
    ensures { Known finder.entry.work.now finder.entry.rows edge.key edge.to result }
{
    let rows = finder.rows?;
    let shelf = shelf_of(finder.work.len(), rows, edge)?;
    look(finder.work, shelf, edge)
}

// The place of a destination among a block's: by the index, or by looking for it.
pub fn place_of(finder: Finder, at: Counted, to: usize) -> Option<usize>
    requires finds { Finds finder }
    requires stood { Stood finder.map.now at }
    ensures { PlaceSo finder.entry.map.now at to result }
{
    let key = at.slot + 1;
    if let Some(place) = known(finder, Edge { key, to }) {
        return Some(place);
    }
    seek(finder.map, at.block.named, to)
}

// An entry: one more than the place of its block's count, the destination, and one more than its place among the block's.
fn enter(work: &mut [u8], at: usize, edge: Edge, place: usize)
    requires at_in_bounds { at + 24 ≤ length work.old }
    requires place_bound { place + 1 < 2 ^ 64 }
    ensures { Entered work.old at edge.key edge.to place work.new }
{
    put64(work, at, edge.key);
    put64(work, at + 8, edge.to);
    put64(work, at + 16, place + 1);
}

// Puts an edge on its shelf, where an entry is free.
fn insert(work: &mut [u8], shelf: usize, edge: Edge, place: usize)
    requires shelf_in_bounds { shelf + 384 ≤ length work.old }
    requires place_bound { place + 1 < 2 ^ 64 }
    ensures { Inserted work.old shelf edge.key edge.to place work.new }
{
    for i in 0..16 {
        let at = shelf + 24 * i;
        if get64(work, at) == 0 {
            return enter(work, at, edge, place);
        }
    }
}

// The same, where there are shelves.
fn keep(work: &mut [u8], rows: usize, edge: Edge, place: usize)
    requires rows_in_bounds { 16 * rows ≤ length work.old }
    requires place_bound { place + 1 < 2 ^ 64 }
    ensures { Kept work.old rows edge.key edge.to place work.new }
{
    if let Some(shelf) = shelf_of(work.len(), rows, edge) {
        insert(work, shelf, edge, place);
    }
}

// Puts a block's distinct destinations into the index, and gives how many there are.
// Map, `work` and rows stay apart: the index is being made, so there is no `Finder` of it yet.
pub fn link(map: &[u8], work: &mut [u8], rows: usize, key: usize, named: Named) -> usize
    requires walking { Walking map.now named.at }
    requires owned { Owned map.now key named }
    requires table { Table map.now work.old rows }
    ensures { Linked map.now work.old rows named work.new result }
{
    let mut count = 0;
    for to in Distinct::new(map, named) {
        keep(work, rows, Edge { key, to }, count);
        count += 1;
    }
    count
}
