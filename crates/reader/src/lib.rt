// The reader of stored maps (document 02, No. 2): the entry at an offset, the judgement of a whole byte string, and the walk over an accepted one.
#![tactic(auto)]

mod body;
mod class;
mod dest;
mod entry;
mod kind;
mod lead;
mod run;
mod scan;
mod walk;

pub use class::Order;
pub use entry::{Entry, Fault, entry_at};
pub use lead::end_of;
pub use run::seven_at;
pub use scan::{BadEntry, Head, Scan, begin, head_of, last, one, read};
pub use walk::{Step, address, first, next};
