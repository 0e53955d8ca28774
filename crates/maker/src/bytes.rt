// The list form on bytes: a number is eight bytes, highest first.
ghost use Rattle.paper.specs.Answer.{answer};
ghost use Rattle.laws.specs.Lent.{◌to◌};
ghost use Rattle.maker.specs.Lists.{MakesBytes};

use crate::lists::make_in;
use paper::Refusal;

// The frames of data words, at the front of a lent output.
pub fn make_bytes(data: &[u8], frames: &mut [u8]) -> Result<(), Refusal>
    ensures { MakesBytes «data».now (frames.entry to frames.exit) (answer result) }
{
    if data.len() % 8 != 0 {
        return Err(Refusal::Unfit);
    }
    if frames.len() % 8 != 0 {
        return Err(Refusal::Unfit);
    }
    make_in(data, frames)
}
