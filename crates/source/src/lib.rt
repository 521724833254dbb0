#![tactic(auto)]

// The Rust's files stand in specs/, what is proved of them in proofs/; there is no code here.
