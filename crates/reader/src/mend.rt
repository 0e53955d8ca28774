// Mending, over all code words: the clean frame within two flips, the entry of its flips, its pad, its run sums.
ghost use Rattle.std.specs.Prelude.{◌≡◌, ◌<◌, ◌^◌};
ghost use Rattle.bch.specs.Corrections.{places, mask};
ghost use Rattle.tables.specs.Tables.{entry_of};
ghost use Rattle.frame.specs.Word.{word_of};
ghost use Rattle.frame.specs.Sums.{sums};
ghost use Rattle.paper.specs.Answer.{gives};
ghost use Rattle.reader.specs.Answers.{answer};
ghost use Rattle.decoding.specs.Reads.{Reads};
ghost use Rattle.reader.specs.ByTables.{near_by, as_received, by_entry, mend_by};
ghost use Rattle.reader.specs.Parts.{mended, mending};

use crate::{Word, said};
use paper::Refusal;

// The entry of no flips. An entry is a number with places in it, as `MendTable` says of the table.
const NO_FLIPS: u64 = 4095;

#[derive(Clone, Copy, Debug, PartialEq, Eq)]
pub(crate) struct Mended {
    pub(crate) clean: u64,
    pub(crate) entry: u64,
    pub(crate) pad_wrong: bool,
    pub(crate) runs: u64,
}

// The word with ones at the places of an entry alone.
#[tactic(auto, unfolding(bch::specs::Corrections::mask))]
fn mask(e: u64) -> u64
    requires { e < 4096 }
    ensures { result ≡ mask e }
{
    (0x4000_0000_0000_0000u64 >> (e / 64)) ^ (0x4000_0000_0000_0000u64 >> (e % 64))
}

// Sums and frame stand side by side below: what is read by division has no table, and what is read by a table no division.

// The word w with its right pad, reached from the frame by the flips of an entry.
fn near(frame: u64, w: u64, entry: u64, runs: u64) -> Mended
    requires { w < 2 ^ 63 }
    ensures { mended result ≡ near_by frame w (places (entry_of entry)) runs }
{
    Mended {
        clean: w * 2 + (1 - w % 2),
        entry,
        pad_wrong: frame % 2 == w % 2,
        runs,
    }
}

// A word of remainder 0 is a code word as it came.
#[tactic(auto, unfolding(bch::specs::Corrections::places))]
pub(crate) fn as_received(x: u64, frame: u64) -> Mended
    ensures { gives (mended result) ≡ as_received x frame }
{
    near(frame, frame / 2, NO_FLIPS, x / 4096)
}

// By an entry of the table of corrections, with the run sums of its flips above it.
fn by_entry(n: u64, x: u64, frame: u64) -> Result<Mended, Refusal>
    ensures { mending result ≡ by_entry n x frame }
{
    let e = n % 4096;
    if e == 0 {
        return Err(Refusal::NoWord);
    }
    let w = (frame / 2) ^ mask(e);
    Ok(near(frame, w, e, (x ^ n) / 4096))
}

// A frame whose word has the sums x.
pub(crate) fn mend_by(c: &[u16; 4096], x: u64, frame: u64) -> Result<Mended, Refusal>
    ensures { mending result ≡ mend_by c.now x frame }
{
    by_entry(u64::from(c[(x % 4096) as usize]), x, frame)
}

// Apart, so that the table is written only where it is needed.
pub(crate) fn by_own_table(x: u64, frame: u64) -> Result<Word, Refusal>
    requires { x ≡ sums (word_of frame) }
    ensures { Reads frame (answer result) }
{
    let c = tables::corrections();
    said::lawful(mend_by(&c, x, frame)?)
}
