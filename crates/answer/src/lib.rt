// The whole answer: the refusals in the documents' order, the map, with the text or without, and what stands in every lent byte afterwards.
#![tactic(auto)]

mod both;
mod early;
mod find;
mod map;

pub use both::{Written, map_json};
pub use map::map_code;
