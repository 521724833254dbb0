// Composing a child's state with a parent's: each Before(n) of the child is the parent's symbol at n, and below the child's cells stand those of the
// parent that lie deeper. Nothing is trimmed. Each new cell is written once; child and parent are read where they lie.
// "Composing child with parent reads, at every position, the child's symbol with Before(n) replaced by the parent's position n."
ghost use Rattle.std.specs.Prelude.{◌≡◌, ◌+◌, ◌-◌, ◌≤◌, ◌<◌, ◌^◌, length, take, drop};
ghost use Rattle.spec.specs.Stacks.{through, compose};
ghost use Rattle.state.specs.Symbols.{sym_of};
ghost use Rattle.state.specs.Cells.{stack_at};
ghost use Rattle.lent.specs.Bytes.{Stored};
ghost use Rattle.state.specs.Composed.{Resolves, Composes, ComposesKept, Mapped, Composed};
ghost use Rattle.state.specs.Homes.{bytes_in, ComposesIn};

use crate::cell::{CELL, get_cell, put_cell};
use crate::read::{base_at, symbol_at};
use crate::sym::StackSym;
use lent::{copy, copy_within};

// How many cells a child of `upper` cells over Before(base) has when it is composed with a parent of `lower` cells.
pub fn composed_len(upper: usize, base: usize, lower: usize) -> usize
    requires { upper + lower < 2 ^ 64 }
    ensures { result ≡ upper + (lower - (base + 1)) }
{
    if lower <= base {
        return upper;
    }
    upper + (lower - base - 1)
}

// A child's symbol over the parent whose state is in the `lower` cells from `parent` on.
#[tactic(auto, unfolding(spec::specs::Stacks::through))]
fn resolved(bytes: &[u8], parent: usize, lower: usize, symbol: StackSym) -> StackSym
    requires { Resolves bytes.now parent lower (sym_of symbol) }
    ensures { sym_of result ≡ through (stack_at bytes.now parent lower) (sym_of symbol) }
{
    match symbol {
        StackSym::Before(position) => symbol_at(bytes, parent, lower, position),
        StackSym::Constant(_) | StackSym::Jumpdest(_) | StackSym::Other(_) => symbol,
    }
}

// Where the parent's state lies: in a buffer of its own, into which it was run, or in that of the child, where it is kept.
// `Here` is a place too, and no lack of one, so an Option would be no plainer.
#[derive(Clone, Copy)]
pub enum Home<'a> {
    Apart(&'a [u8]),
    Here,
}

// A child's symbol over the parent in its home.
fn resolved_in(home: Home, s: &[u8], parent: usize, lower: usize, symbol: StackSym) -> StackSym
    requires { Resolves (bytes_in home s.now) parent lower (sym_of symbol) }
    ensures { sym_of result ≡ through (stack_at (bytes_in home.entry s.now) parent lower) (sym_of symbol) }
{
    match home {
        Home::Apart(w) => resolved(w, parent, lower, symbol),
        Home::Here => resolved(s, parent, lower, symbol),
    }
}

// Stores `count` bytes of the parent's home, from `from` on, into s from `to` on.
fn copy_from(home: Home, s: &mut [u8], to: usize, from: usize, count: usize)
    requires { (to + count ≤ length s.old) × (from + count ≤ length (bytes_in home s.old)) }
    ensures { Stored count s.old to (take count (drop from (bytes_in home.entry s.old))) s.new }
{
    match home {
        Home::Apart(w) => copy(s, to, w, from, count),
        Home::Here => copy_within(s, from, to, count),
    }
}

// Writes the child's cells over the parent.
fn map(home: Home, s: &mut [u8], child: usize, upper: usize, to: usize, parent: usize, lower: usize)
    requires { ComposesIn home s.old child upper to parent lower }
    ensures { Mapped s.old child upper to (stack_at (bytes_in home.entry s.old) parent lower) s.new }
{
    for i in 0..upper {
        let symbol = get_cell(s, child + CELL * i);
        let over = resolved_in(home, s, parent, lower, symbol);
        put_cell(s, to + CELL * i, over);
    }
}

// Composes the child's state with a parent's in its home, and gives the number of cells from `to` on. It is part of its two callers, so that the home costs
// nothing at run time.
#[inline(always)]
fn composed(
    home: Home,
    s: &mut [u8],
    child: usize,
    upper: usize,
    to: usize,
    parent: usize,
    lower: usize,
) -> usize
    requires { ComposesIn home s.old child upper to parent lower }
    ensures { Composed s.old to (compose (stack_at s.old child upper) (stack_at (bytes_in home.entry s.old) parent lower)) s.new result }
{
    let base = base_at(s, child, upper);
    map(home, s, child, upper, to, parent, lower);
    if lower - 1 <= base {
        return upper;
    }
    let below = lower - 1 - base;
    copy_from(
        home,
        s,
        to + CELL * upper,
        parent + CELL * (base + 1),
        CELL * below,
    );
    upper + below
}

// Composes the child's state with a parent's own, which was run into w, and gives the number of cells from `to` on.
pub fn compose_own(
    w: &[u8],
    s: &mut [u8],
    child: usize,
    upper: usize,
    to: usize,
    parent: usize,
    lower: usize,
) -> usize
    requires { Composes s.old child upper to w.now parent lower }
    ensures { Composed s.old to (compose (stack_at s.old child upper) (stack_at w.now parent lower)) s.new result }
{
    composed(Home::Apart(w), s, child, upper, to, parent, lower)
}

// Composes the child's state with a parent's that is kept in s, and gives the number of cells from `to` on.
pub fn compose_kept(
    s: &mut [u8],
    child: usize,
    upper: usize,
    to: usize,
    parent: usize,
    lower: usize,
) -> usize
    requires { ComposesKept s.old child upper to parent lower }
    ensures { Composed s.old to (compose (stack_at s.old child upper) (stack_at s.old parent lower)) s.new result }
{
    composed(Home::Here, s, child, upper, to, parent, lower)
}
