// The maker of frames: of one data word, of a list, of a list of bytes.
#![tactic(auto)]

ghost use Rattle.std.specs.Prelude.{◌≡◌};
ghost use Rattle.paper.specs.Answer.{answer};
ghost use Rattle.laws.specs.Lent.{◌to◌};
ghost use Rattle.maker.specs.Makes.{Makes};
ghost use Rattle.maker.specs.Lists.{MakesList};

use paper::Refusal;

mod bytes;
mod layout;
mod lists;

pub use bytes::make_bytes;

// The frame of a data word.
pub fn make(data: u64) -> Result<u64, Refusal>
    ensures { Makes «data» (answer result) }
{
    if layout::DATA_END <= data {
        return Err(Refusal::Outside);
    }
    Ok(layout::frame_of(data))
}

// The frames of a list of data words, at the front of a lent output.
pub fn make_list(data: &[u64], frames: &mut [u64]) -> Result<(), Refusal>
    ensures { MakesList «data».now (frames.entry to frames.exit) (answer result) }
{
    lists::make_in(data, frames)
}
