// The entries on capture files. Frames are bytes here, eight a frame, highest first.
ghost use Rattle.std.specs.Prelude.{◌≡◌, ◌≤◌, length};
ghost use Rattle.paper.specs.Answer.{answer as says, number_of, numbered};
ghost use Rattle.laws.specs.Lent.{◌to◌, ◌over◌};
ghost use Rattle.host.specs.Entries.{returned};
ghost use Rattle.host.specs.Captures.{WritesFile, label_bytes, labelled, ReadsLabel, ReadsFile};

use crate::{refused, returned};
use capture::Label;
use paper::Refusal;

// The bytes of an answer.
const LABEL_BYTES: usize = 12;

// What C gets of a call that answers the length it wrote.
pub fn length_of(f: Result<usize, Refusal>) -> u64
    ensures { result ≡ returned (says f) }
{
    returned(f.map(|n| n as u64))
}

// Lane and count in the twelve bytes of the answer.
#[tactic(auto, using(crate::proofs::Labels::two_copies))]
fn lay_label(answer: &mut [u8], h: Label)
    requires { 12 ≤ length answer.old }
    ensures { answer.new ≡ label_bytes h.lane h.count over answer.old }
{
    answer[..4].copy_from_slice(&h.lane.to_be_bytes());
    answer[4..12].copy_from_slice(&(h.count as u64).to_be_bytes());
}

// What C gets of an answer: 0 and the label in the answer's bytes, or the refusal.
fn told(r: Result<Label, Refusal>, answer: &mut [u8]) -> u64
    requires { 12 ≤ length answer.old }
    ensures { (result ≡ number_of (says r)) × (answer.new ≡ labelled (says r) answer.old) }
{
    match r {
        Ok(h) => {
            lay_label(answer, h);
            0
        }
        Err(r) => refused(r),
    }
}

#[unsafe(no_mangle)]
pub extern "C" fn lks_capture_write(lane: u32, frames: &[u8], notes: &[u8], file: &mut [u8]) -> u64
    ensures { WritesFile lane frames.now notes.now (file.entry to file.exit) result }
{
    length_of(capture::write_bytes(lane, frames, notes, file))
}

#[unsafe(no_mangle)]
pub extern "C" fn lks_capture_head(file: &[u8], answer: &mut [u8]) -> u64
    ensures { ReadsLabel file.now (answer.entry to answer.exit) (numbered result) }
{
    if answer.len() < LABEL_BYTES {
        return refused(Refusal::Unfit);
    }
    told(capture::head(file), answer)
}

#[unsafe(no_mangle)]
pub extern "C" fn lks_capture_read(file: &[u8], frames: &mut [u8], answer: &mut [u8]) -> u64
    ensures { ReadsFile file.now (frames.entry to frames.exit) (answer.entry to answer.exit) (numbered result) }
{
    if answer.len() < LABEL_BYTES {
        return refused(Refusal::Unfit);
    }
    told(capture::read_bytes(file, frames), answer)
}
