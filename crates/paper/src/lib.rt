// The numbers that the paper fixes for more than one crate: its refusals and its limits. specs/Numbers has them by the same names.
#![tactic(auto)]

ghost use Rattle.std.specs.Prelude.{◌≡◌, Some};
ghost use Rattle.std.specs.Fmt.{decimal, styled_decimal};
ghost use Rattle.paper.specs.Answer.{code, answer, number_of};

use std::error::Error;
use std::fmt;

// The refusals, each by its number in the paper's table.
#[derive(Clone, Copy, Debug, PartialEq, Eq)]
pub enum Refusal {
    // Data, a state, a verdict or a flag that is none.
    Outside = 11,
    // Lengths that do not fit.
    Unfit = 12,
    NoWord = 13,
    RunBroken = 14,
    NoBlock = 15,
    Eighth = 16,
    TooManyBits = 17,
    AllZero = 18,
    NothingCompared = 19,
    PastCount = 20,
    // No such tag, or under 24 bytes.
    NoTag = 21,
    // The trailer's numbers disagree with the file.
    Disagreeing = 22,
    // Over 8,000 frames.
    TooManyFrames = 23,
}

impl Refusal {
    // Its number.
    pub fn code(self) -> u8
        ensures { result ≡ code self }
    {
        self as u8
    }
}

// A refusal is shown as its number.
impl fmt::Display for Refusal {
    ghost output = { λ r. Some (decimal (code r)) };

    ghost styled_output = { λ r s. Some (styled_decimal s (code r)) };

    fn fmt<W: fmt::Write>(&self, f: &mut fmt::Formatter<W>) -> fmt::Result {
        self.code().fmt(f)
    }
}

impl Error for Refusal {}

// Of a piece and of a buffer.
pub const MOST_BYTES: usize = 65536;

// Frames and check flips of a tally, bits of a counter: 2^53 - 1.
pub const MOST_COUNTED: u64 = 9007199254740991;

// The number of an answer towards C: 0 where nothing is refused.
pub fn number_of<T: Copy>(r: Result<T, Refusal>) -> u8
    ensures { result ≡ number_of (answer r) }
{
    match r {
        Ok(_) => 0,
        Err(e) => e.code(),
    }
}
