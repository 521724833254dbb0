// The checks afterwards, from a block to behind its end, and the list of the blocks' starts.
// "Afterwards a Jump to no block, or to a block whose first byte isn't 5B, becomes Terminate false. So does a Jumpi whose false side starts no block;
// otherwise, if its true side starts none or isn't 5B, it becomes a Jump to its false side."
ghost use Rattle.std.specs.Prelude.{◌≡◌, true, not, eqb, ◌+◌, ◌*◌, ◌≤◌, length};
ghost use Rattle.std.specs.Option.{is_some, unwrap_or};
ghost use Rattle.spec.specs.Lists.{mem};
ghost use Rattle.spec.specs.Blocks.{jump, jumpi, starts, lands, checked};
ghost use Rattle.layout.specs.Parts.{rows_end};
ghost use Rattle.layout.specs.Rows.{tag_at};
ghost use Rattle.initial.specs.Rows.{type_of, blocks_at};
ghost use Rattle.initial.specs.Promises.{Rows, Apart, CheckedRow, Listing, ListedRow, CheckedAll};

use evm::op::JUMPDEST;
use layout::part::{START, STARTS, STARTS_MORE};
use layout::row::{BlockType, END, ROW, block_at, write_block};
use lent::{get16, put16};

// The checks of every block, and how many blocks there are. Up to a block's end no other starts, so the next turn is behind it.
// The loop counts no index: it goes on behind a block's end, and by 1 only where no block starts.
pub fn check(code: &[u8], w: &mut [u8]) -> usize
    requires rows { Rows code.now w.old }
    requires apart { Apart (length code.now) 0 (blocks_at w.old (length code.now)) }
    ensures { CheckedAll code.now w.old w.new result }
{
    let size = code.len();
    let mut many = 0;
    let mut start = 0;
    while start <= size {
        match check_row(code, w, start) {
            Some(end) => {
                list_row(w, size, start, many);
                many += 1;
                start = end + 1;
            }
            None => start += 1,
        }
    }
    many
}

// Lists the start of the block that starts at `start` behind `many` others.
// W and the code's length stay two parameters: `check` lends W to `check_row` in between, so a struct of both would be made for each block.
fn list_row(w: &mut [u8], size: usize, start: usize, many: usize)
    requires listing { Listing size w.old start many }
    requires starts { tag_at w.old start ≡ 0 → ⊥ }
    ensures { ListedRow size w.old start many w.new (many + 1) }
{
    put16(w, STARTS * size + STARTS_MORE + START * many, start);
}

// The checks of the block that starts at `start`, if one does, and its end.
fn check_row(code: &[u8], w: &mut [u8], start: usize) -> Option<usize>
    requires rows { Rows code.now w.old }
    requires start_in_bounds { start ≤ length code.now }
    ensures checked { CheckedRow code.now w.old start w.new (unwrap_or result start) }
    ensures starts { is_some result ≡ not (eqb (tag_at w.old start) 0) }
{
    let Some(block) = block_at(w, start) else {
        return None;
    };
    let end = get16(w, ROW * start + END);
    match block {
        BlockType::Jump { to } => {
            let checked = checked_jump(code, w, to);
            write_block(w, start, end, checked);
        }
        BlockType::Jumpi { to, other } => {
            let checked = checked_jumpi(code, w, to, other);
            write_block(w, start, end, checked);
        }
        _ => {}
    }
    Some(end)
}

// A Jump to no block, or to one without a JUMPDEST, becomes Terminate false.
fn checked_jump(code: &[u8], w: &[u8], to: usize) -> BlockType
    requires { rows_end (length code.now) ≤ length w.now }
    ensures { result ≡ type_of (checked code.now (starts (blocks_at w.now (length code.now)))
        (jump to)) }
{
    if lands(code, w, to) {
        BlockType::Jump { to }
    } else {
        BlockType::Terminate { success: false }
    }
}

// A Jumpi whose false side starts no block becomes Terminate false; otherwise, if its true side does not land, a Jump to its false side.
fn checked_jumpi(code: &[u8], w: &[u8], to: usize, other: usize) -> BlockType
    requires { rows_end (length code.now) ≤ length w.now }
    ensures { result ≡ type_of (checked code.now (starts (blocks_at w.now (length code.now)))
        (jumpi to other)) }
{
    if starts(code, w, other) {
        return falling(code, w, to, other);
    }
    BlockType::Terminate { success: false }
}

// A Jumpi whose false side starts a block: "otherwise, if its true side starts none or isn't 5B, it becomes a Jump to its false side."
fn falling(code: &[u8], w: &[u8], to: usize, other: usize) -> BlockType
    requires code_in_bounds { rows_end (length code.now) ≤ length w.now }
    requires code_value { mem other (starts (blocks_at w.now (length code.now))) ≡ true }
    ensures { result ≡ type_of (checked code.now (starts (blocks_at w.now (length code.now)))
        (jumpi to other)) }
{
    if lands(code, w, to) {
        BlockType::Jumpi { to, other }
    } else {
        BlockType::Jump { to: other }
    }
}

// Does a block start at `to`?
fn starts(code: &[u8], w: &[u8], to: usize) -> bool
    requires { rows_end (length code.now) ≤ length w.now }
    ensures { result ≡ mem to (starts (blocks_at w.now (length code.now))) }
{
    to <= code.len() && block_at(w, to).is_some()
}

// Does a block start at `to`, with a JUMPDEST?
fn lands(code: &[u8], w: &[u8], to: usize) -> bool
    requires { rows_end (length code.now) ≤ length w.now }
    ensures { result ≡ lands code.now (starts (blocks_at w.now (length code.now))) to }
{
    to < code.len() && code[to] == JUMPDEST && starts(code, w, to)
}
