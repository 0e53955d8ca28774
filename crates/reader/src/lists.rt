// The list forms' work, on numbers and on bytes.
ghost use Rattle.paper.specs.Answer.{answer};
ghost use Rattle.laws.specs.Lent.{lent};
ghost use Rattle.reader.specs.Answers.{verdict, data_in, pad_in, checks_in};
ghost use Rattle.reader.specs.Claims.{Numbers};
ghost use Rattle.reader.specs.Parts.{ShowsBy, ShowsIn, Room, ReadIn, ReadsIn};

use crate::sight::sight_by;
use octets::Form;
use paper::Refusal;
use tables::Tables;

// Each frame read into the outputs; a place that `pads` does not have is left out. Each output is lent by itself, as the public calls are
// lent it: `ReadsList`, `ReadsPads` and `ReadsBytes` say of each what it is left as.
fn read_each<F: Form>(
    tables: &Tables,
    frames: &[F],
    data: &mut [F],
    verdicts: &mut [u8],
    pads: &mut [u8],
    checks: &mut [u8],
)
    requires { Room (F.numbers frames.now) (F.numbers «data».old) verdicts.old checks.old }
    ensures data { ShowsIn F.laid tables.now.corrections tables.now.sums data_in (F.numbers frames.now) «data».old «data».new }
    ensures verdicts { ShowsBy tables.now.corrections tables.now.sums verdict (F.numbers frames.now) (lent verdicts) }
    ensures pads { ShowsBy tables.now.corrections tables.now.sums pad_in (F.numbers frames.now) (lent pads) }
    ensures checks { ShowsBy tables.now.corrections tables.now.sums checks_in (F.numbers frames.now) (lent checks) }
{
    // The bound says that data has place i too: a frame with flips then takes 7 instructions less.
    for i in 0..F::count(frames).min(F::count(data)) {
        let s = sight_by(tables, F::number(frames, i));
        F::store(data, i, s.data);
        verdicts[i] = s.verdict;
        checks[i] = s.checks;
        if i < pads.len() {
            pads[i] = s.pad;
        }
    }
}

// The tables are taken once.
fn read_all<F: Form>(
    frames: &[F],
    data: &mut [F],
    verdicts: &mut [u8],
    pads: &mut [u8],
    checks: &mut [u8],
)
    requires fits { Numbers (F.numbers frames.now) }
    requires room { Room (F.numbers frames.now) (F.numbers «data».old) verdicts.old checks.old }
    ensures { ReadIn F.laid (F.numbers frames.now) «data».old «data».new (lent verdicts) (lent pads) (lent checks) }
{
    let tables = Tables::new();
    read_each(&tables, frames, data, verdicts, pads, checks);
}

// The data, the verdict byte, the pad flag and the check flips of each frame, at the front of outputs; 12 where one of them, `pads`
// aside, has no place for each frame.
pub(crate) fn read_in<F: Form>(
    frames: &[F],
    data: &mut [F],
    verdicts: &mut [u8],
    pads: &mut [u8],
    checks: &mut [u8],
) -> Result<(), Refusal>
    requires { Numbers (F.numbers frames.now) }
    ensures { ReadsIn F.numbers F.laid frames.now «data».old «data».new (lent verdicts) (lent pads) (lent checks) (answer result) }
{
    let n = F::count(frames);
    if F::count(data) < n || verdicts.len() < n || checks.len() < n {
        return Err(Refusal::Unfit);
    }
    read_all(frames, data, verdicts, pads, checks);
    Ok(())
}
