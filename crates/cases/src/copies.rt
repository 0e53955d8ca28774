// Duplicate-add-parity's answers.
use crate::fields::{Case, Field};
use crate::say::{Item, Manner, Shown};
use dap::Damage;
use std::io::Result;

// Copies made, and what the outputs then hold.
pub(crate) fn make(case: &Case, data: &[u8]) -> Result<()> {
    let mut first = [u8::UNTOUCHED; 255];
    let mut second = [u8::UNTOUCHED; 255];
    let first = case.front(Field::A, &mut first);
    let second = case.front(Field::B, &mut second);
    case.answered(dap::make(data, first, second).map(u64::from))?;
    case.left(Manner::Whole, first)?;
    case.left(Manner::Whole, second)
}

// What is damaged, as the cases number it.
impl Shown for Damage {
    fn show(self, rt: &HostRuntime) -> Result<()> {
        let number: u64 = match self {
            Damage::Nothing => 0,
            Damage::FirstCopy => 1,
            Damage::SecondCopy => 2,
            Damage::ParityNumber => 3,
        };
        number.show(rt)
    }
}

// The verdict, and what is handed back.
pub(crate) fn read(case: &Case, first: &[u8], second: &[u8]) -> Result<()> {
    let parity = case.byte(Field::A);
    case.answered(dap::verdict(first, second, parity))?;
    case.left(Manner::Whole, dap::good(first, second, parity))
}
