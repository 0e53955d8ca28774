// The hierarchical code's answers.
use crate::fields::{Case, Field};
use crate::say;
use crate::say::Shown;
use hier::Decoded;
use std::io::Result;

// A block, as its four digits.
#[derive(Clone, Copy)]
struct Block(u16);

impl Shown for Block {
    fn show(self, rt: &HostRuntime) -> Result<()> {
        print!(rt; "{:04x}", self.0)
    }
}

impl Shown for Decoded {
    fn show(self, rt: &HostRuntime) -> Result<()> {
        say::numbers(rt, &[u64::from(self.data), u64::from(self.flips)])
    }
}

pub(crate) fn make(case: &Case) -> Result<()> {
    case.answered(hier::make(case.byte(Field::A)).map(Block))
}

pub(crate) fn read(case: &Case) -> Result<()> {
    case.answered(hier::read((case.number(Field::A) % 65536) as u16))
}
