// Calls on a register, one after another (document 02, Job 10): what is so after any calls from an empty one. Definitions in specs/, laws in proofs/, no
// code.
#![tactic(auto)]
