// The fold: one frame after another, from the tally handed in.
ghost use Rattle.std.specs.Prelude.{◌≡◌, true, ◌<◌, length};
ghost use Rattle.paper.specs.Answer.{answer, gives};
ghost use Rattle.tally.specs.Told.{told};
ghost use Rattle.tally.specs.Ranges.{is_known};
ghost use Rattle.tally.specs.Fold.{step};
ghost use Rattle.tally.specs.Parts.{told_of, Alike, Spare, Folds, Past, limited};

use crate::Tally;
use paper::{MOST_COUNTED, Refusal};

// Verdicts are bytes, as lists show them: `Adds` is told such lists, with any byte in them.
const NO_WORD: u8 = Refusal::NoWord as u8;

const RUN_BROKEN: u8 = Refusal::RunBroken as u8;

// What a tally is told of one frame: its verdict byte, its pad flag, its check flips.
#[derive(Clone, Copy, Debug, PartialEq, Eq)]
struct Told {
    verdict: u8,
    pad: u8,
    checks: u8,
}

impl Told {
    fn is_known(self) -> bool
        ensures { result ≡ is_known (told_of self) }
    {
        self.pad <= 1
            && match self.verdict {
                0..=2 => self.checks <= self.verdict,
                NO_WORD | RUN_BROKEN => self.checks == 0,
                _ => false,
            }
    }
}

// A refused frame has no pad flag to count and no check flips, and lengthens the stretch.
fn step_refused(t: Tally, verdict: u8) -> Tally
    requires { Spare t 1 × (2 < verdict) }
    ensures { result ≡ step t (record { verdict = verdict; pad = 0; checks = 0 }) }
{
    let stretch = t.current + 1;
    Tally {
        no_word: t.no_word + u64::from(verdict == NO_WORD),
        run_broken: t.run_broken + u64::from(verdict == RUN_BROKEN),
        current: stretch,
        longest: t.longest.max(stretch),
        ..t
    }
}

// An accepted frame ends the stretch.
fn step(t: Tally, x: Told) -> Tally
    requires { Spare t 1 × (is_known (told_of x) ≡ true) }
    ensures { result ≡ step t (told_of x) }
{
    match x.verdict {
        0 => Tally {
            clean: t.clean + 1,
            pad_wrong: t.pad_wrong + u64::from(x.pad),
            current: 0,
            ..t
        },
        1 | 2 => Tally {
            one: t.one + u64::from(x.verdict == 1),
            two: t.two + u64::from(x.verdict == 2),
            pad_wrong: t.pad_wrong + u64::from(x.pad),
            check_flips: t.check_flips + u64::from(x.checks),
            current: 0,
            ..t
        },
        _ => step_refused(t, x.verdict),
    }
}

// The tally with lists of equal lengths added, or 11 where they hold what is not known.
pub(crate) fn folded(
    t: Tally,
    verdicts: &[u8],
    pads: &[u8],
    checks: &[u8],
) -> Result<Tally, Refusal>
    requires { Alike verdicts.now pads.now checks.now × Spare t (length verdicts.now) }
    ensures { Folds t (told verdicts.now pads.now checks.now) (answer result) }
{
    let mut u = t;
    for ((verdict, pad), flips) in verdicts.iter().zip(pads).zip(checks) {
        let x = Told {
            verdict: *verdict,
            pad: *pad,
            checks: *flips,
        };
        if !x.is_known() {
            return Err(Refusal::Outside);
        }
        u = step(u, x);
    }
    Ok(u)
}

// The total of check flips is known only now: 20 where it is past its limit.
pub(crate) fn limited(t: Tally) -> Result<Tally, Refusal>
    ensures { answer result ≡ limited (gives t) }
{
    if t.check_flips > MOST_COUNTED {
        return Err(Refusal::PastCount);
    }
    Ok(t)
}

// Lists for which there is no room: 11 as for any, else 20. From fresh no count of theirs wraps.
pub(crate) fn past(verdicts: &[u8], pads: &[u8], checks: &[u8]) -> Result<Tally, Refusal>
    requires { Alike verdicts.now pads.now checks.now }
    ensures { Past (told verdicts.now pads.now checks.now) (answer result) }
{
    folded(Tally::fresh(), verdicts, pads, checks)?;
    Err(Refusal::PastCount)
}
