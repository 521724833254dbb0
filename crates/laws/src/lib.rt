#![tactic(auto)]

// Laws of branches and lists that every crate may cite stand in proofs/; there is no code here.
