// A release in numbers (document 02, No. 11): a stored map added to a report, and a report joined to another.
#![tactic(auto)]

mod call;
mod count;
mod merge;
mod number;
mod scan;
mod share;

pub use call::{add, join};
