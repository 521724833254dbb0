// The symbol of a jump, looked up along a path: a Before(n) is position n of the next block's own run. A block is run only while the symbol is a Before.
// "the symbol at the jump being Jumpdest of the destination"
ghost use Rattle.std.specs.Prelude.{◌≡◌};
ghost use Rattle.spec.specs.Stacks.{jumpdest, eq_sym};
ghost use Rattle.exec.specs.Modes.{mode_of};
ghost use Rattle.state.specs.Symbols.{sym_of};
ghost use Rattle.inspector.specs.Symbols.{Lent, Taken, Looks, Looked};

use crate::replay::Replay;
use exec::run::run;
use layout::part::{NEED, NEED_MORE};
use state::read::symbol_at;
use state::sym::StackSym;

// The symbol that the jump of the block at `start` takes; without a jump one that is no Jumpdest and stays so.
pub fn taken(replay: Replay, w: &mut [u8], start: usize) -> StackSym
    requires { Lent replay.code.now w.old }
    ensures { Taken (mode_of replay.entry.mode) replay.entry.code.now w.old start w.new result }
{
    let end = NEED * replay.code.len() + NEED_MORE;
    let own = run(replay.mode, replay.code, start, w, end);
    match own.goes {
        Some(symbol) => symbol,
        None => StackSym::Other(0),
    }
}

// A symbol looked up in the block at `start`, which ran before.
pub fn looked(replay: Replay, w: &mut [u8], start: usize, symbol: StackSym) -> StackSym
    requires lent { Lent replay.code.now w.old }
    requires looks { Looks (sym_of symbol) }
    ensures { Looked (mode_of replay.entry.mode) replay.entry.code.now w.old start symbol w.new result }
{
    match symbol {
        StackSym::Before(position) => {
            let end = NEED * replay.code.len() + NEED_MORE;
            let own = run(replay.mode, replay.code, start, w, end);
            symbol_at(w, own.at, own.n, position)
        }
        _ => symbol,
    }
}

// Whether a symbol is Jumpdest of the destination.
pub fn is_jumpdest(symbol: StackSym, to: usize) -> bool
    ensures { result ≡ eq_sym (jumpdest to) (sym_of symbol) }
{
    symbol == StackSym::Jumpdest(to)
}
