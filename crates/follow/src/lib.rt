// The follower of logs (document 02, No. 8): it walks a log of program counters through a stored map, block by block.
#![tactic(auto)]

mod block;
mod call;
mod destination;
mod edges;
mod find;
mod index;
mod place;
mod room;
mod step;
mod walk;

pub use call::follow;
