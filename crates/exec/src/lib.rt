// A block's run on the symbolic stack, over lent bytes, in either mode.
#![tactic(auto)]

pub mod mode;
pub mod run;
mod step;
mod swap;
mod top;
mod trade;
mod words;
