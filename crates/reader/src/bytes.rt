// The list form on bytes: a number is eight bytes, highest first.
ghost use Rattle.paper.specs.Answer.{answer};
ghost use Rattle.laws.specs.Lent.{◌to◌};
ghost use Rattle.reader.specs.Lists.{ReadsBytes};

use crate::lists::read_in;
use paper::Refusal;

// The data, the verdict byte and the check flips of each frame, at the front of three lent outputs.
pub fn read_bytes(
    frames: &[u8],
    data: &mut [u8],
    verdicts: &mut [u8],
    checks: &mut [u8],
) -> Result<(), Refusal>
    ensures { ReadsBytes frames.now («data».entry to «data».exit) (verdicts.entry to verdicts.exit)
        (checks.entry to checks.exit) (answer result) }
{
    if frames.len() % 8 != 0 || data.len() % 8 != 0 {
        return Err(Refusal::Unfit);
    }
    read_in(frames, data, verdicts, &mut [], checks)
}
