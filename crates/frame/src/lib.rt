// What a frame is, and the line that frames make: definitions and laws in specs/ and proofs/, no code.
#![tactic(auto)]
