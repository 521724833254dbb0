// Instructions of code: their bytes and rows, and the walk from one instruction to the next.
#![tactic(auto)]

pub mod op;
pub mod rows;
pub mod walk;
pub mod walker;
