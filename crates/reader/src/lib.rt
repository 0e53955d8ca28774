// The reader of frames: of any 64 received bits, of a list, of a list of bytes.
#![tactic(auto)]

ghost use Rattle.std.specs.Prelude.{◌≡◌, length};
ghost use Rattle.paper.specs.Answer.{answer as listed};
ghost use Rattle.laws.specs.Lent.{◌to◌};
ghost use Rattle.reader.specs.Answers.{places_of, answer, verdict};
ghost use Rattle.decoding.specs.Reads.{Reads};
ghost use Rattle.reader.specs.ByTables.{read_by};
ghost use Rattle.reader.specs.Lists.{ReadsList, ReadsPads};

use paper::Refusal;
use tables::Tables;

mod bytes;
mod flipped;
mod lists;
mod mend;
mod said;
mod sight;
mod sums;

pub use bytes::read_bytes;
pub use sight::{Sight, sight_by};

// The places of the flips that were undone, the lower first: none, one or two.
#[derive(Clone, Copy, Debug, PartialEq, Eq)]
pub enum Flips {
    Nowhere,
    One(u64),
    Two(u64, u64),
}

impl Flips {
    // How many there are.
    pub fn count(self) -> u8
        ensures { result ≡ length (places_of self) }
    {
        match self {
            Flips::Nowhere => 0,
            Flips::One(_) => 1,
            Flips::Two(_, _) => 2,
        }
    }
}

// What a lawful word within two flips says of the frame that was received. The check flips are those in positions 51 to 62.
#[derive(Clone, Copy, Debug, PartialEq, Eq)]
pub struct Word {
    pub data: u64,
    pub flips: Flips,
    pub check_flips: u8,
    pub pad_wrong: bool,
}

// Any 64 received bits, read: a lawful word, or 13, or 14. Where the remainder is not 0 the table of corrections is written anew: for
// many frames lend the tables.
#[tactic(auto, using(crate::proofs::ByTables::read_received))]
pub fn read(frame: u64) -> Result<Word, Refusal>
    ensures { Reads frame (answer result) }
{
    let x = sums::sums_of(frame / 2);
    if x % 4096 == 0 {
        return said::lawful(mend::as_received(x, frame));
    }
    mend::by_own_table(x, frame)
}

// The same by tables that are lent.
pub fn read_by(tables: &Tables, frame: u64) -> Result<Word, Refusal>
    ensures { answer result ≡ read_by tables.now.corrections tables.now.sums frame }
{
    let x = sums::sums_by(&tables.sums, frame);
    // The usual frame first.
    if x == said::CLEAN {
        return Ok(said::clean(frame));
    }
    said::lawful(mend::mend_by(&tables.corrections, x, frame)?)
}

// The verdict byte of a reading: 0, 1 or 2 flips, 13 or 14.
pub fn verdict_of(r: Result<Word, Refusal>) -> u8
    ensures { result ≡ verdict (answer r) }
{
    match r {
        Ok(w) => w.flips.count(),
        Err(e) => e.code(),
    }
}

// The data, the verdict byte and the check flips of each frame of a list, at the front of three lent outputs.
pub fn read_list(
    frames: &[u64],
    data: &mut [u64],
    verdicts: &mut [u8],
    checks: &mut [u8],
) -> Result<(), Refusal>
    ensures { ReadsList frames.now («data».entry to «data».exit) (verdicts.entry to verdicts.exit)
        (checks.entry to checks.exit) (listed result) }
{
    lists::read_in(frames, data, verdicts, &mut [], checks)
}

// The same, and the pad flag of each frame, 1 for wrong, at the front of a fourth lent output.
pub fn read_list_pads(
    frames: &[u64],
    data: &mut [u64],
    verdicts: &mut [u8],
    pads: &mut [u8],
    checks: &mut [u8],
) -> Result<(), Refusal>
    ensures { ReadsPads frames.now («data».entry to «data».exit) (verdicts.entry to verdicts.exit)
        (pads.entry to pads.exit) (checks.entry to checks.exit) (listed result) }
{
    if pads.len() < frames.len() {
        return Err(Refusal::Unfit);
    }
    lists::read_in(frames, data, verdicts, pads, checks)
}
