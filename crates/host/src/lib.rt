// The entries towards C: thin, each with the contract of the call behind it, on numbers and bytes.
#![tactic(auto)]

ghost use Rattle.std.specs.Prelude.{◌≡◌, ◌≤◌, length, get_or};
ghost use Rattle.paper.specs.Answer.{code, answer, number_of, numbered};
ghost use Rattle.laws.specs.Lent.{◌to◌};
ghost use Rattle.reader.specs.Answers.{places_of, found};
ghost use Rattle.maker.specs.Lists.{MakesBytes};
ghost use Rattle.reader.specs.Lists.{ReadsBytes};
ghost use Rattle.pair.specs.Calls.{MakesPairsBytes, ReadsPairsBytes};
ghost use Rattle.host.specs.Entries.{returned, MakesCode, Small, answer_bytes, no_place, laid_out, ReadsOut};

mod captures;

pub use captures::{length_of, lks_capture_head, lks_capture_read, lks_capture_write};
use paper::Refusal;
use reader::{Flips, Word};

// The bytes of an answer.
const ANSWER_BYTES: usize = 13;

// In a byte for a place where there is none.
const NO_PLACE: u8 = 255;

// What C gets of a refusal.
fn refused(r: Refusal) -> u64
    ensures { result ≡ code r }
{
    u64::from(r.code())
}

// What C gets of a call that answers a number.
fn returned(r: Result<u64, Refusal>) -> u64
    ensures { result ≡ returned (answer r) }
{
    r.unwrap_or_else(refused)
}

// What C gets of a call that leaves its answer in what it was lent.
fn number_of(r: Result<(), Refusal>) -> u64
    ensures { result ≡ number_of (answer r) }
{
    u64::from(paper::number_of(r))
}

// The bytes of both places.
fn places(p: Flips) -> (u8, u8)
    requires { Small p }
    ensures first { result.0 ≡ get_or (places_of p) 0 no_place }
    ensures second { result.1 ≡ get_or (places_of p) 1 no_place }
{
    match p {
        Flips::Nowhere => (NO_PLACE, NO_PLACE),
        Flips::One(a) => (a as u8, NO_PLACE),
        Flips::Two(a, b) => (a as u8, b as u8),
    }
}

// A reading in the thirteen bytes of the answer.
#[tactic(auto, using(crate::proofs::Buffer::thirteen))]
fn lay_out(answer: &mut [u8], w: Word)
    requires { (answer_bytes ≤ length answer.old) × Small w.flips }
    ensures { answer.new ≡ laid_out (found w) answer.old }
{
    octets::store(answer, 0, w.data);
    answer[8] = w.flips.count();
    (answer[9], answer[10]) = places(w.flips);
    answer[11] = u8::from(w.pad_wrong);
    answer[12] = w.check_flips;
}

#[unsafe(no_mangle)]
pub extern "C" fn lks_frame_make(data: u64) -> u64
    ensures { MakesCode «data» result }
{
    returned(maker::make(data))
}

#[tactic(auto, using(crate::proofs::Buffer::small))]
#[unsafe(no_mangle)]
pub extern "C" fn lks_frame_read(frame: u64, answer: &mut [u8]) -> u64
    ensures { ReadsOut frame (answer.entry to answer.exit) result }
{
    if answer.len() < ANSWER_BYTES {
        return refused(Refusal::Unfit);
    }
    match reader::read(frame) {
        Ok(w) => {
            lay_out(answer, w);
            0
        }
        Err(r) => refused(r),
    }
}

#[unsafe(no_mangle)]
pub extern "C" fn lks_frames_make(data: &[u8], frames: &mut [u8]) -> u64
    ensures { MakesBytes «data».now (frames.entry to frames.exit) (numbered result) }
{
    number_of(maker::make_bytes(data, frames))
}

#[unsafe(no_mangle)]
pub extern "C" fn lks_frames_read(
    frames: &[u8],
    data: &mut [u8],
    verdicts: &mut [u8],
    checks: &mut [u8],
) -> u64
    ensures { ReadsBytes frames.now («data».entry to «data».exit) (verdicts.entry to verdicts.exit)
        (checks.entry to checks.exit) (numbered result) }
{
    number_of(reader::read_bytes(frames, data, verdicts, checks))
}

#[unsafe(no_mangle)]
pub extern "C" fn lks_pairs_make(frames: &[u8], words: &mut [u8]) -> u64
    ensures { MakesPairsBytes frames.now (words.entry to words.exit) (numbered result) }
{
    number_of(pair::make_pairs_bytes(frames, words))
}

#[unsafe(no_mangle)]
pub extern "C" fn lks_pairs_read(words: &[u8], data: &mut [u8], verdicts: &mut [u8]) -> u64
    ensures { ReadsPairsBytes words.now («data».entry to «data».exit) (verdicts.entry to verdicts.exit)
        (numbered result) }
{
    number_of(pair::read_pairs_bytes(words, data, verdicts))
}
