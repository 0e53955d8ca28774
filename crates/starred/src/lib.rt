// The paper's starred rows, as one proved table: definitions and proofs in specs/ and proofs/, no code.
#![tactic(auto)]
