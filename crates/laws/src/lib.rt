// Laws of exclusive-or, of tests that are computed and of lists that are written from the front: specs/ and proofs/, no code.
#![tactic(auto)]
