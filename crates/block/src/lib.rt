// What a block of the hierarchical code is, and the one that is near: definitions and laws in specs/ and proofs/, no code.
#![tactic(auto)]
