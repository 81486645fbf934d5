// General forms stand in specs/, their laws in proofs/: lists, words and their bytes, byte strings, refusals and their outcomes. Nothing here knows
// the field or the cipher. The code over them stands in the crates buffers and strings.
#![tactic(auto)]
