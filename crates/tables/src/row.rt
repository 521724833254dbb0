// Looking a remembered row up: along the chain of its bucket.
// "If last block, state and symbol were met in this turn"
ghost use Rattle.std.specs.Prelude.{◌≡◌, ◌+◌, ◌*◌, ◌^◌, ◌<◌, ◌≤◌, length};
ghost use Rattle.state.specs.Symbols.{sym_of};
ghost use Rattle.state.specs.Cells.{syms_at, State};
ghost use Rattle.tables.specs.Chains.{any};
ghost use Rattle.tables.specs.Rows.{shelf_at, seen_met, is_met, Stamped, Finds};
ghost use Rattle.tables.specs.Sums.{weight, bucket_of, SumsWith};

use crate::chain::{Chain, found};
use crate::record::bucket_of;
use crate::shelf::stamp_at;
use crate::sum::{MARK, SUM, low, mix};
use layout::seen::{CELLS, FROM, HEAD, LINK, SEEN, SYMBOL};
use lent::{get16, get32};
use state::cell::{CELL, get_cell};
use state::same::same_state;
use state::sym::StackSym;

// What is remembered: the path's last block, the symbol read there, and the place and the length of the state in S, in cells.
#[derive(Clone, Copy)]
pub struct Seen {
    pub last: usize,
    pub symbol: StackSym,
    pub from: usize,
    pub cells: usize,
}

// The two sums of a row, worked out together.
#[derive(Clone, Copy)]
struct Sums {
    sum: u32,
    mark: u32,
}

// What a symbol adds to a sum: its number, and its tag a million times.
fn weigh(symbol: StackSym) -> u32
    ensures { result ≡ weight (sym_of symbol) }
{
    let (tag, number) = symbol.parts();
    low(number).wrapping_add(low(tag * 1000000))
}

// Both sums with the symbols of so many cells of S from the cell `from` on.
fn sum_cells(s: &[u8], from: usize, cells: usize, sums: Sums) -> Sums
    requires { 9 * (from + cells) ≤ length s.now }
    ensures { SumsWith sums (syms_at s.now (9 * from) cells) result }
{
    let mut sum = sums.sum;
    let mut mark = sums.mark;
    for i in 0..cells {
        let weight = weigh(get_cell(s, CELL * (from + i)));
        sum = mix::<SUM>(sum, weight);
        mark = mix::<MARK>(mark, weight);
    }
    Sums { sum, mark }
}

// How many marks there are.
const MARKS: usize = 256;

// The sum of what is looked up, and its mark in the lowest byte: where the second sum falls among 256 buckets.
pub fn stamp_of(s: &[u8], seen: Seen) -> usize
    requires { (State s.now (9 * seen.from) seen.cells) × (seen.last < 2 ^ 16) }
    ensures { Stamped s.now seen result }
{
    let last = low(seen.last);
    let weight = weigh(seen.symbol);
    let sum = mix::<SUM>(mix::<SUM>(0, last), weight);
    let mark = mix::<MARK>(mix::<MARK>(0, last), weight);
    let sums = sum_cells(s, seen.from, seen.cells, Sums { sum, mark });
    sums.sum as usize * 256 + bucket_of(sums.mark as usize, MARKS)
}

// What is looked up among the remembered rows, with its sum.
#[derive(Clone, Copy)]
struct StateLookup<'a> {
    s: &'a [u8],
    t: &'a [u8],
    buckets: usize,
    rows: usize,
    seen: Seen,
    sum: usize,
}

impl Chain for StateLookup<'_> {
    ghost key = { λ x. shelf_at x.buckets x.t.now };

    ghost own = { λ x. bucket_of x.buckets x.sum };

    ghost rows = { λ x. x.rows };

    ghost hit = { λ x. is_met x.t.now x.s.now (seen_met x.s.now x.seen) };

    ghost holds = { λ x. Finds x.t.now x.s.now x.buckets x.rows x.seen x.sum };

    fn newest(&self) -> Option<usize> {
        get32(self.t, SEEN * bucket_of(self.sum, self.buckets) + HEAD).checked_sub(1)
    }

    fn link(&self, row: usize) -> Option<usize> {
        get32(self.t, SEEN * row + LINK).checked_sub(1)
    }

    fn fits(&self, row: usize) -> bool {
        if stamp_at(self.t, row) != self.sum {
            return false;
        }
        if get16(self.t, SEEN * row) != self.seen.last {
            return false;
        }
        if self.seen.symbol != get_cell(self.t, SEEN * row + SYMBOL) {
            return false;
        }
        if get32(self.t, SEEN * row + CELLS) != self.seen.cells {
            return false;
        }
        same_state(
            self.s,
            CELL * self.seen.from,
            CELL * get32(self.t, SEEN * row + FROM),
            self.seen.cells,
        )
    }
}

// Whether one of the rows remembers `seen`, whose sum is given.
// T and its rows stay two parameters: the rows in use are a part of a lent room (no heap, fixed memory).
pub fn find_row(s: &[u8], t: &[u8], buckets: usize, rows: usize, seen: Seen, sum: usize) -> bool
    requires { Finds t.now s.now buckets rows seen sum }
    ensures { result ≡ any (is_met t.now s.now (seen_met s.now seen)) rows }
{
    found(&StateLookup {
        s,
        t,
        buckets,
        rows,
        seen,
        sum,
    })
}
