// Page records of document 02, Job 9: the layout, reading it, what the tag covers, over any sealing and any tag: definitions (specs/) and laws (proofs/), no code.
#![tactic(auto)]
