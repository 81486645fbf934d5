// The definitions of words, the field GF(2^8), the substitution, mixing and the merged table stand in specs/, their laws in proofs/.
// The code stands in the crates arithmetic, tables and mixing, so that trying an edit of it does not prove the laws again.
#![tactic(auto)]
