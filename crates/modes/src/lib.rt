// Modes of operation of NIST SP 800-38A, document 01's runs, and CMAC of SP 800-38B, document 02's tag, over any block map: definitions (specs/) and laws (proofs/), no code.
#![tactic(auto)]
