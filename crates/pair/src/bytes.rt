// The list forms on bytes: a number is eight bytes, highest first.
ghost use Rattle.paper.specs.Answer.{answer};
ghost use Rattle.laws.specs.Lent.{◌to◌};
ghost use Rattle.pair.specs.Calls.{MakesPairsBytes, ReadsPairsBytes};

use crate::lists::{ToWords, over_pairs, read_all};
use paper::Refusal;

// The words of a list of frames, pair by pair, at the front of a lent output.
pub fn make_pairs_bytes(frames: &[u8], words: &mut [u8]) -> Result<(), Refusal>
    ensures { MakesPairsBytes frames.now (words.entry to words.exit) (answer result) }
{
    if frames.len() % 8 != 0
        || words.len() % 8 != 0
        || frames.len() / 8 % 2 != 0
        || words.len() < frames.len()
    {
        return Err(Refusal::Unfit);
    }
    over_pairs::<ToWords, u8>(frames, words);
    Ok(())
}

// The data and the verdict byte of each frame of a list of words, each read by itself, at the front of two lent outputs.
pub fn read_pairs_bytes(words: &[u8], data: &mut [u8], verdicts: &mut [u8]) -> Result<(), Refusal>
    ensures { ReadsPairsBytes words.now («data».entry to «data».exit) (verdicts.entry to verdicts.exit) (answer result) }
{
    if words.len() % 8 != 0
        || data.len() % 8 != 0
        || words.len() / 8 % 2 != 0
        || data.len() < words.len()
        || verdicts.len() < words.len() / 8
    {
        return Err(Refusal::Unfit);
    }
    read_all(words, data, verdicts);
    Ok(())
}
