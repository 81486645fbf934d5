// The ties of the promise (crates/promise) to the operations: what the contract of each tells its caller is what the promise says of it, or has it as a
// consequence (proofs/). No code.
#![tactic(auto)]
