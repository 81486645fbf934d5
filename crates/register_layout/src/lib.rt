// A register of page keys as bytes in a lent buffer, as C hands it over, 2824 of them: what stands where (specs/), and that nothing is lost on the way
// (proofs/). No code: the crate register_records reads and extends it.
#![tactic(auto)]
