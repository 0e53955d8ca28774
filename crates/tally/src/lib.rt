// The tally: counts over the verdicts of frames, their pad flags and their check flips.
#![tactic(auto)]

ghost use Rattle.std.specs.Prelude.{◌≡◌, [], ◌∷◌};
ghost use Rattle.paper.specs.Answer.{answer};
ghost use Rattle.tally.specs.Counts.{fresh};
ghost use Rattle.tally.specs.Calls.{Adds, Sums};

mod fold;
mod range;

use paper::Refusal;

// How many frames were clean, had one or two flips, were 13 or 14; of the accepted ones, how many had a wrong pad; how many of all their
// flips were in check bits; and the unbroken stretch of refused frames up to now, and the longest one.
#[derive(Clone, Copy, Debug, PartialEq, Eq)]
pub struct Tally {
    pub clean: u64,
    pub one: u64,
    pub two: u64,
    pub no_word: u64,
    pub run_broken: u64,
    pub pad_wrong: u64,
    pub check_flips: u64,
    pub current: u64,
    pub longest: u64,
}

impl Tally {
    pub fn fresh() -> Tally
        ensures { result ≡ fresh }
    {
        Tally {
            clean: 0,
            one: 0,
            two: 0,
            no_word: 0,
            run_broken: 0,
            pad_wrong: 0,
            check_flips: 0,
            current: 0,
            longest: 0,
        }
    }

    // One verdict, its flag and its check flips: lists of one.
    pub fn add(self, verdict: u8, pad: u8, checks: u8) -> Result<Tally, Refusal>
        ensures { Adds self (verdict ∷ []) (pad ∷ []) (checks ∷ []) (answer result) }
    {
        self.add_list(&[verdict], &[pad], &[checks])
    }

    // The next tally. 12: lists of unfit lengths; 11: no verdict, no flag, more check flips than flips, or a state out of its range;
    // 20: more than 2^53 - 1 frames or check flips. After a refusal the caller still has the tally it passed.
    // Three lists side by side, as the reader's list calls fill them: `Adds` says what they are owed.
    pub fn add_list(self, verdicts: &[u8], pads: &[u8], checks: &[u8]) -> Result<Tally, Refusal>
        ensures { Adds self verdicts.now pads.now checks.now (answer result) }
    {
        if verdicts.len() != pads.len() || verdicts.len() != checks.len() {
            return Err(Refusal::Unfit);
        }
        if !range::in_range(self) {
            return Err(Refusal::Outside);
        }
        if !range::has_room(self, verdicts.len() as u64) {
            return fold::past(verdicts, pads, checks);
        }
        fold::limited(fold::folded(self, verdicts, pads, checks)?)
    }

    // How many frames it has counted; 11: a state out of its range.
    #[tactic(auto, unfolding(crate::specs::Calls::Sums))]
    pub fn frames(self) -> Result<u64, Refusal>
        ensures { Sums self (answer result) }
    {
        if range::in_range(self) {
            Ok(range::frames_in(self))
        } else {
            Err(Refusal::Outside)
        }
    }
}
