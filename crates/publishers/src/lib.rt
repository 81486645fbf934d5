// Calls of two publishers on one store (document 02, Job 7): what each gets, and what is promised of it (specs/), and why it holds (proofs/).
// No code.
#![tactic(auto)]
