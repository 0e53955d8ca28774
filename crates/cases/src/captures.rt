// The answers of capture files. What is written from numbers and from bytes, or read as either, goes one way; the calls on bytes in
// closures, since the check knows no contract of a function that is named where its crate only re-exports it.
use crate::fields::{Case, Field};
use crate::say;
use crate::say::{Item, Manner, Shown};
use capture::Label;
use paper::Refusal;
use std::io;

impl Shown for Label {
    fn show(self, rt: &HostRuntime) -> io::Result<()> {
        say::numbers(rt, &[u64::from(self.lane), self.count as u64])
    }
}

// The whole eights of the bytes, as numbers.
pub(crate) fn eights<'a>(bytes: &[u8], list: &'a mut [u64; 8192]) -> &'a [u64] {
    for (i, x) in list.iter_mut().enumerate() {
        *x = octets::number(bytes, i);
    }
    &list[..(bytes.len() / 8).min(8192)]
}

// The call is handed along with the case: which call it is, is no part of the case.
fn written<T, F: FnOnce(u32, &[T], &[u8], &mut [u8]) -> Result<usize, Refusal>>(
    case: &Case,
    frames: &[T],
    notes: &[u8],
    by: F,
) -> io::Result<()>
    requires { F.IsAlwaysCallable by }
{
    let mut out = [u8::UNTOUCHED; 65600];
    let out = case.front(Field::B, &mut out);
    case.answered(by(case.half(Field::A), frames, notes, out).map(|n| n as u64))?;
    case.left(case.manner(Field::C), out)
}

pub(crate) fn write(case: &Case, frames: &[u8], notes: &[u8]) -> io::Result<()> {
    let mut list = [0u64; 8192];
    written(case, eights(frames, &mut list), notes, capture::write)?;
    written(
        case,
        frames,
        notes,
        |lane, frames, notes, out| capture::write_bytes(lane, frames, notes, out),
    )
}

fn taken<T: Item, F: FnOnce(&[u8], &mut [T]) -> Result<Label, Refusal>>(
    case: &Case,
    file: &[u8],
    frames: &mut [T],
    by: F,
) -> io::Result<()>
    requires { F.IsAlwaysCallable by }
{
    case.answered(by(file, frames))?;
    case.left(Manner::InShort, frames)
}

pub(crate) fn read(case: &Case, file: &[u8]) -> io::Result<()> {
    let mut numbers = [u64::UNTOUCHED; 8100];
    let mut bytes = [u8::UNTOUCHED; 64900];
    case.answered(capture::head(file))?;
    taken(
        case,
        file,
        case.front(Field::A, &mut numbers),
        capture::read,
    )?;
    taken(
        case,
        file,
        case.front(Field::B, &mut bytes),
        |file, frames| capture::read_bytes(file, frames),
    )?;
    case.left(Manner::InShort, capture::notes(file))
}
