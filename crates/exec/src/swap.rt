// SWAP on the stack in hand. Where it reaches below the cells, the cells that it needs are first spelled out.
// "SWAPk (90-9F): k+1/k+1."
ghost use Rattle.std.specs.Prelude.{◌+◌, ◌*◌, ◌<◌};
ghost use Rattle.spec.specs.Stacks.{swap};
ghost use Rattle.state.specs.Cells.{befores, Wrote};
ghost use Rattle.exec.specs.Working.{stack_of, deepen, Held, Spells, Deepens, Becomes};

use crate::top::Top;
use lent::copy_within;
use state::cell::{CELL, get_cell, put_cell};
use state::sym::StackSym;

// Writes Before(base), Before(base + 1) and so on into the `count` cells from `at` on.
fn spell(w: &mut [u8], at: usize, base: usize, count: usize)
    requires { Spells w.old at base count }
    ensures { Wrote count w.old at (befores base count) w.new }
{
    for i in 0..count {
        put_cell(w, at + CELL * i, StackSym::Before(base + i));
    }
}

// The same stack with so many cells at least.
fn deepened(w: &mut [u8], top: Top, cells: usize) -> Top
    requires { Deepens w.old top cells }
    ensures { Becomes w.old top (deepen cells (stack_of w.old top)) w.new result }
{
    if cells <= top.n {
        return top;
    }
    let more = cells - top.n;
    let at = top.at - CELL * more;
    copy_within(w, top.at, at, CELL * top.n);
    spell(w, at + CELL * top.n, top.base, more);
    Top {
        at,
        n: cells,
        base: top.base + more,
    }
}

// The top and the cell `depth` + 1 below it change places.
fn exchange(w: &mut [u8], top: Top, depth: usize)
    requires { (Held w.old top) × (depth + 1 < top.n) }
    ensures { Becomes w.old top (swap depth (stack_of w.old top)) w.new top }
{
    let far = top.at + CELL * (depth + 1);
    let symbol = get_cell(w, top.at);
    let other = get_cell(w, far);
    put_cell(w, top.at, other);
    put_cell(w, far, symbol);
}

// The top and the word `depth` + 1 below it change places.
pub fn swapped(w: &mut [u8], top: Top, depth: usize) -> Top
    requires { Deepens w.old top (depth + 2) }
    ensures { Becomes w.old top (swap depth (stack_of w.old top)) w.new result }
{
    let deep = deepened(w, top, depth + 2);
    exchange(w, deep, depth);
    deep
}
