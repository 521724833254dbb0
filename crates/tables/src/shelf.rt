// A remembered row in T, and the head of its bucket, which stands in the row of the bucket's number.
// "T: 32 bytes a remembered row."
ghost use Rattle.std.specs.Prelude.{◌≡◌, ◌+◌, ◌*◌, ◌^◌, ◌<◌, ◌≤◌, length};
ghost use Rattle.lent.specs.Bytes.{Stored};
ghost use Rattle.layout.specs.Seens.{SEEN, seen_place, T-FROM, stamp_at};
ghost use Rattle.state.specs.Symbols.{sym_of};
ghost use Rattle.tables.specs.Rows.{place_bytes, SeenPut, Tellable, RowPut, Pushes, Pushed};

use crate::record::bucket_of;
use crate::row::Seen;
use layout::seen::{CELLS, FROM, HEAD, LINK, MARK, SEEN, SUM, SYMBOL};
use lent::{get8, get32, put8, put16, put32};
use state::cell::put_cell;
use state::sym::StackSym;

// The sum and the mark that are stored with a row.
pub fn stamp_at(t: &[u8], row: usize) -> usize
    requires { seen_place row + SEEN ≤ length t.now }
    ensures { result ≡ stamp_at t.now row }
{
    get32(t, SEEN * row + SUM) * 256 + get8(t, SEEN * row + MARK)
}

// Stores a last block and its symbol.
fn put_seen(t: &mut [u8], at: usize, last: usize, symbol: StackSym)
    requires { (at + 11 ≤ length t.old) × (last < 2 ^ 16) }
    ensures { SeenPut t.old at last (sym_of symbol) t.new }
{
    put16(t, at, last);
    put_cell(t, at + SYMBOL, symbol);
}

// Stores the state's place and length, the sum and the link of the row that begins at `at`.
fn put_place(t: &mut [u8], at: usize, from: usize, cells: usize, sum: usize, link: usize)
    requires { at + SEEN ≤ length t.old }
    ensures { Stored 16 t.old (at + T-FROM) (place_bytes from cells sum link) t.new }
{
    put32(t, at + FROM, from);
    put32(t, at + CELLS, cells);
    put32(t, at + SUM, sum);
    put32(t, at + LINK, link);
}

// Stores a row.
fn put_met(t: &mut [u8], row: usize, seen: Seen, sum: usize, link: usize)
    requires { (seen_place row + SEEN ≤ length t.old) × (Tellable seen sum link) }
    ensures { RowPut t.old row seen sum link t.new }
{
    put_seen(t, SEEN * row, seen.last, seen.symbol);
    put8(t, SEEN * row + MARK, sum % 256);
    put_place(t, SEEN * row, seen.from, seen.cells, sum / 256, link);
}

// Stores a row and puts it at the head of its bucket.
pub fn push_row(t: &mut [u8], buckets: usize, row: usize, seen: Seen, sum: usize)
    requires { Pushes buckets t.old row seen sum }
    ensures { Pushed buckets t.old row seen sum t.new }
{
    let at = SEEN * bucket_of(sum, buckets) + HEAD;
    let head = get32(t, at);
    put_met(t, row, seen, sum, head);
    put32(t, at, row + 1);
}
