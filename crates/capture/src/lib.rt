// Capture files: written from lane, frames and notes, read back, or refused.
#![tactic(auto)]

ghost use Rattle.paper.specs.Answer.{answer};
ghost use Rattle.laws.specs.Lent.{◌to◌};
ghost use Rattle.capture.specs.Calls.{Writes, Heads, Reads, HandsNotes};

mod bytes;
mod filling;
mod trailer;

pub use bytes::{read_bytes, write_bytes};
use paper::Refusal;

// Frames of a capture.
pub const MOST_FRAMES: usize = 8000;

// The bytes of a trailer.
const TRAILER_BYTES: usize = 24;

// What a trailer says: the lane, and how many frames there are.
#[derive(Clone, Copy, Debug, PartialEq, Eq)]
pub struct Label {
    pub lane: u32,
    pub count: usize,
}

// The capture file of a lane, its frames and notes, at the start of a lent output; its length is answered.
pub fn write(lane: u32, frames: &[u64], notes: &[u8], out: &mut [u8]) -> Result<usize, Refusal>
    ensures { Writes lane frames.now notes.now (out.entry to out.exit) (answer result) }
{
    let n = filling::fit(frames.len(), notes.len(), out.len())?;
    filling::put_frames(frames, out);
    filling::finish(lane, frames.len(), notes, out);
    Ok(n)
}

// Lane and count of a capture file.
pub fn head(file: &[u8]) -> Result<Label, Refusal>
    ensures { Heads file.now (answer result) }
{
    let n = file.len();
    if paper::MOST_BYTES < n {
        return Err(Refusal::Unfit);
    }
    if n < TRAILER_BYTES {
        return Err(Refusal::NoTag);
    }
    let at = n - TRAILER_BYTES;
    trailer::label(at, &file[at..])
}

// Lane and count of a capture file, and its frames at the front of a lent list with room for 8,000.
pub fn read(file: &[u8], frames: &mut [u64]) -> Result<Label, Refusal>
    ensures { Reads file.now (frames.entry to frames.exit) (answer result) }
{
    if frames.len() < MOST_FRAMES {
        return Err(Refusal::Unfit);
    }
    let h = head(file)?;
    filling::take_frames(file, &mut frames[..h.count]);
    Ok(h)
}

// The notes of a capture file, that part of it itself; where `head` refuses, the empty part at its start.
pub fn notes(file: &[u8]) -> &[u8]
    ensures { HandsNotes file.entry result }
{
    match head(file) {
        Ok(h) => {
            let from = h.count * 8;
            let to = file.len() - TRAILER_BYTES;
            &file[from..to]
        }
        Err(_) => &file[0..0],
    }
}
