// What it is to read 64 received bits, demand 3: definitions and laws in specs/ and proofs/, no code.
#![tactic(auto)]
