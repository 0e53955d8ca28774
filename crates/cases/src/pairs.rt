// The answers of pairs. Lists of numbers and lists of bytes go one way, the calls on bytes in closures as those of captures.
use crate::captures::eights;
use crate::fields::{Case, Field};
use crate::say;
use crate::say::{Item, Shown};
use pair::Two;
use paper::Refusal;
use std::io;

impl Shown for Two {
    fn show(self, rt: &HostRuntime) -> io::Result<()> {
        say::numbers(rt, &[self.first, self.second])
    }
}

pub(crate) fn both(case: &Case) -> io::Result<()> {
    let a = case.number(Field::A);
    let b = case.number(Field::B);
    pair::join(a, b).show(case.rt)?;
    pair::part(a, b).show(case.rt)
}

fn made<T: Item, F: FnOnce(&[T], &mut [T]) -> Result<(), Refusal>>(
    case: &Case,
    frames: &[T],
    words: &mut [T],
    by: F,
) -> io::Result<()>
    requires { F.IsAlwaysCallable by }
{
    case.answered(by(frames, words))?;
    case.left(case.manner(Field::C), words)
}

pub(crate) fn make(case: &Case, frames: &[u8]) -> io::Result<()> {
    let mut list = [0u64; 8192];
    let mut numbers = [u64::UNTOUCHED; 8300];
    let mut bytes = [u8::UNTOUCHED; 66400];
    made(
        case,
        eights(frames, &mut list),
        case.front(Field::A, &mut numbers),
        pair::make_pairs,
    )?;
    made(
        case,
        frames,
        case.front(Field::B, &mut bytes),
        |frames, words| pair::make_pairs_bytes(frames, words),
    )
}

fn parted<T: Item, F: FnOnce(&[T], &mut [T], &mut [u8]) -> Result<(), Refusal>>(
    case: &Case,
    words: &[T],
    data: &mut [T],
    by: F,
) -> io::Result<()>
    requires { F.IsAlwaysCallable by }
{
    let mut verdicts = [u8::UNTOUCHED; 8300];
    let verdicts = case.front(Field::C, &mut verdicts);
    case.answered(by(words, data, verdicts))?;
    case.left(case.manner(Field::D), data)?;
    case.left(case.manner(Field::D), verdicts)
}

pub(crate) fn read(case: &Case, words: &[u8]) -> io::Result<()> {
    let mut list = [0u64; 8192];
    let mut numbers = [u64::UNTOUCHED; 8300];
    let mut bytes = [u8::UNTOUCHED; 66400];
    parted(
        case,
        eights(words, &mut list),
        case.front(Field::A, &mut numbers),
        pair::read_pairs,
    )?;
    parted(
        case,
        words,
        case.front(Field::B, &mut bytes),
        |words, data, verdicts| pair::read_pairs_bytes(words, data, verdicts),
    )
}
