// The same with frames as bytes: a frame is eight bytes, highest first.
// Not one generic call with that on numbers: there each frame is turned, here all are one copy; `fit`, `finish` and `head` serve both.
ghost use Rattle.paper.specs.Answer.{answer};
ghost use Rattle.laws.specs.Lent.{◌to◌};
ghost use Rattle.capture.specs.Calls.{WritesBytes, ReadsBytes};

use crate::{Label, filling};
use paper::Refusal;

// The capture file of a lane, its frames and notes, at the start of a lent output; its length is answered.
pub fn write_bytes(lane: u32, frames: &[u8], notes: &[u8], out: &mut [u8]) -> Result<usize, Refusal>
    ensures { WritesBytes lane frames.now notes.now (out.entry to out.exit) (answer result) }
{
    if frames.len() % 8 != 0 {
        return Err(Refusal::Unfit);
    }
    let count = frames.len() / 8;
    let n = filling::fit(count, notes.len(), out.len())?;
    filling::copy(frames, out);
    filling::finish(lane, count, notes, out);
    Ok(n)
}

// Lane and count of a capture file, and its frames' bytes at the start of a lent output with room for 8,000.
pub fn read_bytes(file: &[u8], frames: &mut [u8]) -> Result<Label, Refusal>
    ensures { ReadsBytes file.now (frames.entry to frames.exit) (answer result) }
{
    if frames.len() % 8 != 0 || frames.len() < crate::MOST_FRAMES * 8 {
        return Err(Refusal::Unfit);
    }
    let h = crate::head(file)?;
    let to = h.count * 8;
    filling::copy(&file[..to], frames);
    Ok(h)
}
