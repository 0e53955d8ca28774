// What a capture file is and what it says: definitions and laws in specs/ and proofs/, no code.
#![tactic(auto)]
