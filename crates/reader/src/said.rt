// What a clean frame says: its run bits, then its data.
ghost use Rattle.std.specs.Prelude.{◌≡◌};
ghost use Rattle.frame.specs.Word.{data_of};
ghost use Rattle.paper.specs.Answer.{gives};
ghost use Rattle.reader.specs.Answers.{found, answer};
ghost use Rattle.reader.specs.ByTables.{clean_sums, as_received, said_by, lawful_by};
ghost use Rattle.reader.specs.Parts.{mended};

use crate::flipped::{check_flips_of, flips_of};
use crate::mend::Mended;
use crate::{Flips, Word};
use paper::Refusal;

// The run sums of a word whose three run bits are right.
pub(crate) const ALL_RIGHT: u64 = 7;

// The sums of a lawful word: remainder 0, and all right.
pub(crate) const CLEAN: u64 = 0x7000;

#[tactic(auto, unfolding(frame::specs::Word::data_of))]
pub(crate) fn data_in(w: u64) -> u64
    ensures { result ≡ data_of w }
{
    w / 0x8000_0000_0000 % 0x1_0000 * 0x1_0000_0000
        + w / 0x4000_0000 % 0x1_0000 * 0x1_0000
        + w / 0x2000 % 0x1_0000
}

// A code word: lawful, or 14.
pub(crate) fn lawful(m: Mended) -> Result<Word, Refusal>
    ensures { answer result ≡ lawful_by (mended m) }
{
    if m.runs == ALL_RIGHT {
        let e = m.entry % 4096;
        return Ok(Word {
            data: data_in(m.clean / 2),
            flips: flips_of(e),
            check_flips: check_flips_of(e),
            pad_wrong: m.pad_wrong,
        });
    }
    Err(Refusal::RunBroken)
}

// A lawful word as it came.
pub(crate) fn clean(frame: u64) -> Word
    ensures { gives (found result) ≡ said_by (as_received clean_sums frame) }
{
    let w = frame / 2;
    Word {
        data: data_in(w),
        flips: Flips::Nowhere,
        check_flips: 0,
        pad_wrong: frame % 2 == w % 2,
    }
}
