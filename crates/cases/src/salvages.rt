// Salvage's answers.
use crate::fields::{Case, Field};
use crate::say;
use crate::say::{Item, Shown};
use salvage::Counts;
use std::io::Result;

impl Shown for Counts {
    fn show(self, rt: &HostRuntime) -> Result<()> {
        say::numbers(rt, &[self.altered as u64, self.refused as u64])
    }
}

// The counts, and the file and the lists after the call.
pub(crate) fn salvage(case: &Case, file: &mut [u8]) -> Result<()> {
    let mut altered = [u64::UNTOUCHED; 8100];
    let mut places = [u64::UNTOUCHED; 8100];
    let mut refused = [u64::UNTOUCHED; 8100];
    let altered = case.front(Field::A, &mut altered);
    let places = case.front(Field::B, &mut places);
    let refused = case.front(Field::C, &mut refused);
    case.answered(salvage::salvage(file, altered, places, refused))?;
    let manner = case.manner(Field::D);
    case.left(manner, file)?;
    case.left(manner, altered)?;
    case.left(manner, places)?;
    case.left(manner, refused)
}
