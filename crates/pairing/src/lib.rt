// The order of two frames on the line, what a burst does to them, and the runs of such a line: definitions and laws in specs/ and proofs/,
// no code.
#![tactic(auto)]
