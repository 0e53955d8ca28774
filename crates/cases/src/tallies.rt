// The tally's answers, and those of the lane that feeds it.
use crate::fields::{Case, Field};
use crate::say;
use crate::say::Shown;
use lane::Totals;
use paper::Refusal;
use std::io;
use tally::Tally;

fn handed_in(case: &Case) -> Tally {
    Tally {
        clean: case.number(Field::A),
        one: case.number(Field::B),
        two: case.number(Field::C),
        no_word: case.number(Field::D),
        run_broken: case.number(Field::E),
        pad_wrong: case.number(Field::F),
        check_flips: case.number(Field::G),
        current: case.number(Field::H),
        longest: case.number(Field::I),
    }
}

impl Shown for Tally {
    fn show(self, rt: &HostRuntime) -> io::Result<()> {
        say::numbers(
            rt,
            &[
                self.clean,
                self.one,
                self.two,
                self.no_word,
                self.run_broken,
                self.pad_wrong,
                self.check_flips,
                self.current,
                self.longest,
            ],
        )
    }
}

impl Shown for Totals {
    fn show(self, rt: &HostRuntime) -> io::Result<()> {
        self.tally.show(rt)?;
        say::numbers(rt, &[self.frames, self.left])
    }
}

// One verdict with one flag and one number of check flips goes by the call for one.
fn added(t: Tally, verdicts: &[u8], pads: &[u8], checks: &[u8]) -> Result<Tally, Refusal> {
    match (verdicts, pads, checks) {
        ([verdict], [pad], [flips]) => t.add(*verdict, *pad, *flips),
        _ => t.add_list(verdicts, pads, checks),
    }
}

// The flags are the front of the rest, the check flips what is behind them.
pub(crate) fn add(case: &Case, verdicts: &[u8], rest: &[u8]) -> io::Result<()> {
    let (pads, checks) = rest.split_at(case.up_to(Field::J, rest.len()));
    case.answered(added(handed_in(case), verdicts, pads, checks))
}

pub(crate) fn count(case: &Case, piece: &[u8]) -> io::Result<()> {
    case.answered(lane::count(handed_in(case), piece))
}
