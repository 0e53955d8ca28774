// Bus-invert's answers.
use crate::fields::{Case, Field};
use crate::say;
use crate::say::Shown;
use bus::Bus;
use std::io::Result;

impl Shown for Bus {
    fn show(self, rt: &HostRuntime) -> Result<()> {
        say::numbers(
            rt,
            &[
                u64::from(self.width),
                u64::from(self.wires),
                u64::from(self.invert),
            ],
        )
    }
}

// A fresh bus, what is sent from the state handed in, what is received of it.
pub(crate) fn all(case: &Case) -> Result<()> {
    let b = Bus {
        width: case.half(Field::A),
        wires: case.half(Field::B),
        invert: case.byte(Field::C),
    };
    case.answered(Bus::fresh(b.width))?;
    case.answered(b.send(case.half(Field::D)))?;
    case.answered(bus::receive(b.width, b.wires, b.invert).map(u64::from))
}
