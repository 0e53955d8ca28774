// What a test pattern is, as a sequence of bits and as a register that moves: definitions and laws in specs/ and proofs/, no code.
#![tactic(auto)]
