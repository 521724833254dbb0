// The graph after the search: blocks whose records share one destination are merged into jumps, the records become rows of edges, and what is reached is
// flagged.
#![tactic(auto)]

mod kind;
mod merge;
mod note;
mod rewrite;
mod whole;

pub use whole::graph;
