// The promise: the user's demands 1, 2 and 3 and the starred values of document 01, collected (specs/), and why they hold (proofs/).
// No code.
#![tactic(auto)]
