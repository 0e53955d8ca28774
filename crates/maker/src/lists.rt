// The list forms' work, on numbers and on bytes.
ghost use Rattle.std.specs.Prelude.{◌≡◌, false, ◌≤◌, length};
ghost use Rattle.paper.specs.Answer.{answer};
ghost use Rattle.radix.specs.Forms.{WrittenIn};
ghost use Rattle.frame.specs.Word.{FrameOf};
ghost use Rattle.maker.specs.Lists.{any_too_large};
ghost use Rattle.maker.specs.Parts.{MakesIn};

use crate::layout::{DATA_END, frame_of};
use octets::Form;
use paper::Refusal;

pub(crate) fn any_too_large<F: Form>(data: &[F]) -> bool
    ensures { result ≡ any_too_large (F.numbers «data».now) }
{
    for i in 0..F::count(data) {
        if DATA_END <= F::number(data, i) {
            return true;
        }
    }
    false
}

fn make_all<F: Form>(data: &[F], frames: &mut [F])
    requires room { length (F.numbers «data».now) ≤ length (F.numbers frames.old) }
    requires small { any_too_large (F.numbers «data».now) ≡ false }
    ensures { WrittenIn F.laid FrameOf (F.numbers «data».now) frames.old frames.new }
{
    for i in 0..F::count(data) {
        F::store(frames, i, frame_of(F::number(data, i)));
    }
}

// The frames of data words, at the front of an output of the same form.
pub(crate) fn make_in<F: Form>(data: &[F], frames: &mut [F]) -> Result<(), Refusal>
    ensures { MakesIn F.numbers F.laid «data».now frames.old frames.new (answer result) }
{
    if F::count(frames) < F::count(data) {
        return Err(Refusal::Unfit);
    }
    if any_too_large(data) {
        return Err(Refusal::Outside);
    }
    make_all(data, frames);
    Ok(())
}
