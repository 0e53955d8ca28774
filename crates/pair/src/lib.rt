// Pairs for bursts: two frames go out bit by bit in turn, as two words, and are taken apart and read again.
#![tactic(auto)]

ghost use Rattle.paper.specs.Answer.{answer};
ghost use Rattle.laws.specs.Lent.{◌to◌};
ghost use Rattle.pairing.specs.Order.{Interleaved};
ghost use Rattle.pair.specs.Calls.{pair, as_pair, MakesPairs, ReadsPairs};

use lists::{ToWords, over_pairs, read_all};
use paper::Refusal;

mod bits;
mod bytes;
mod lists;
mod within;

pub use bytes::{make_pairs_bytes, read_pairs_bytes};

// Two frames, A and B; or the two words in which they go out.
#[derive(Clone, Copy, Debug, PartialEq, Eq)]
pub struct Two {
    pub first: u64,
    pub second: u64,
}

// The words of two frames.
pub fn join(a: u64, b: u64) -> Two
    ensures { Interleaved (pair a b) (as_pair result) }
{
    Two {
        first: bits::shuffled(bits::highs(a, b)),
        second: bits::shuffled(bits::lows(a, b)),
    }
}

// The frames of two words.
pub fn part(first: u64, second: u64) -> Two
    ensures { Interleaved (as_pair result) (pair first second) }
{
    let x = bits::unshuffled(first);
    let y = bits::unshuffled(second);
    Two {
        first: bits::highs(x, y),
        second: bits::lows(x, y),
    }
}

// The words of a list of frames, pair by pair, at the front of a lent output.
pub fn make_pairs(frames: &[u64], words: &mut [u64]) -> Result<(), Refusal>
    ensures { MakesPairs frames.now (words.entry to words.exit) (answer result) }
{
    if frames.len() % 2 != 0 || words.len() < frames.len() {
        return Err(Refusal::Unfit);
    }
    over_pairs::<ToWords, u64>(frames, words);
    Ok(())
}

// The data and the verdict byte of each frame of a list of words, each read by itself, at the front of two lent outputs.
pub fn read_pairs(words: &[u64], data: &mut [u64], verdicts: &mut [u8]) -> Result<(), Refusal>
    ensures { ReadsPairs words.now («data».entry to «data».exit) (verdicts.entry to verdicts.exit) (answer result) }
{
    if words.len() % 2 != 0 || data.len() < words.len() || verdicts.len() < words.len() {
        return Err(Refusal::Unfit);
    }
    read_all(words, data, verdicts);
    Ok(())
}
