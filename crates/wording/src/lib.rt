// What the text of a listing and of an account is: definitions and laws in specs/ and proofs/, and no function but what is derived.
#![tactic(auto)]

// What a line of an account tells: a frame's index, with the places where it was altered, or that it was refused.
#[derive(Clone, Copy, Debug, PartialEq, Eq)]
pub enum Notice {
    Altered(u64, u64),
    Refused(u64),
}
