// Cuts code into blocks, written as rows of the lent buffer W, checks where their jumps go, and lists their starts.
// "cuts code into blocks; static jumps"
#![tactic(auto)]

mod check;
mod cut;
mod jump;
mod list;
mod turn;

ghost use Rattle.initial.specs.Promises.{Lent, Initial};

use crate::check::check;
use crate::cut::cut;
pub use list::start_at;

// The blocks of the code, cut and checked, and their starts, listed; answers how many there are.
pub fn initial_blocks(code: &[u8], w: &mut [u8]) -> usize
    requires { Lent code.now w.old }
    ensures { Initial code.now w.old w.new result }
{
    cut(code, w);
    check(code, w)
}
