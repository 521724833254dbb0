#![tactic(auto)]

// What the exported calls write is the Rust's, as proofs/ says; there is no code here.
