// Answers and lists on standard output, a space after each number and each list.
use std::io::{Print, Result};

// What a call hands out.
pub(crate) trait Shown {
    fn show(self, rt: &HostRuntime) -> Result<()>;
}

pub(crate) fn numbers(rt: &HostRuntime, list: &[u64]) -> Result<()> {
    for n in list {
        print!(rt; "{n} ")?;
    }
    Ok(())
}

// Of a call that hands out nothing.
impl Shown for () {
    fn show(self, rt: &HostRuntime) -> Result<()> {
        numbers(rt, &[0])
    }
}

impl Shown for u64 {
    fn show(self, rt: &HostRuntime) -> Result<()> {
        numbers(rt, &[self])
    }
}

// What a list is made of: numbers, or bytes.
pub(crate) trait Item: Copy + Into<u64> {
    // ee in every byte: so a line shows what was left alone.
    const UNTOUCHED: Self;

    // From so many on a list is shown in short.
    const LONG: usize;

    fn digits(rt: &HostRuntime, list: &[Self]) -> Result<()>;
}

impl Item for u64 {
    const UNTOUCHED: u64 = 0xeeee_eeee_eeee_eeee;

    const LONG: usize = 0;

    fn digits(rt: &HostRuntime, list: &[u64]) -> Result<()> {
        for x in list {
            print!(rt; "{x:016x}")?;
        }
        print!(rt; " ")
    }
}

impl Item for u8 {
    const UNTOUCHED: u8 = 0xee;

    const LONG: usize = 201;

    // Eight at a time, while there are as many.
    fn digits(rt: &HostRuntime, list: &[u8]) -> Result<()> {
        let (eights, rest) = list.as_chunks::<8>();
        for eight in eights {
            print!(rt; "{:016x}", u64::from_be_bytes(*eight))?;
        }
        for b in rest {
            print!(rt; "{b:02x}")?;
        }
        print!(rt; " ")
    }
}

// The sum of a list and of one number more; of two numbers below 2^32 each makes its own.
fn with(sum: u64, x: u64) -> u64 {
    let half = (sum % 4294967296 * 16777619 + x / 4294967296) % 4294967296;
    (half * 16777619 + x % 4294967296) % 4294967296
}

// The sum of a list, from its length on.
pub(crate) fn sum<T: Item>(list: &[T]) -> u64 {
    list.iter()
        .fold(list.len() as u64, |sum, x| with(sum, (*x).into()))
}

// How a list is shown: in all its digits, or as its sum where it is long.
#[derive(Clone, Copy, Debug, PartialEq, Eq)]
pub(crate) enum Manner {
    Whole,
    InShort,
}
