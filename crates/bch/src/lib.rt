// The code BCH(63,51) of generator g: what a code word is and which places to flip, in specs/ and proofs/; no code.
#![tactic(auto)]
