// What is reached: marks and flags in the lent buffer W, the highest direct parents that are marked, the closure under the blocks' static sides, and
// pruning's closure, each by a worklist.
// W and the code's length stay two parameters: whoever calls lends W to others in between, so a struct of both would be made anew at each call, and each
// contract would have to say besides that the same bytes are still lent and that the length stays.
#![tactic(auto)]

mod closure;
mod fields;
mod follow;
mod high;
mod link;
mod pruning;
mod sides;

pub use closure::{expand, reach};
pub use fields::{is_flagged, is_marked, mark};
pub use high::{highest, raise_sides};
pub use pruning::prune;
