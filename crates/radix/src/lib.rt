// What the bytes of numbers are, highest first: definitions and laws in specs/ and proofs/, no code.
#![tactic(auto)]
