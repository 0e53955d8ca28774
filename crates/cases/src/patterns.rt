// The answers of the generator, the counter and its report.
use crate::fields::{Case, Field};
use crate::say;
use crate::say::{Manner, Shown};
use pattern::{Counter, Generator, Report};
use std::io::Result;

impl Shown for Counter {
    fn show(self, rt: &HostRuntime) -> Result<()> {
        say::numbers(
            rt,
            &[
                u64::from(self.pattern),
                self.filled,
                self.register,
                self.bits,
                self.errors,
            ],
        )
    }
}

impl Shown for Generator {
    fn show(self, rt: &HostRuntime) -> Result<()> {
        say::numbers(rt, &[u64::from(self.pattern), self.register])
    }
}

// 1 for a ratio, 0 for a ceiling, and the bits of a number that is one: a quotient that is none prints nothing.
impl Shown for Report {
    fn show(self, rt: &HostRuntime) -> Result<()> {
        let (measured, bits, errors, x) = match self {
            Report::Measured {
                bits,
                errors,
                ratio,
            } => (1, bits, errors, ratio),
            Report::Ceiling {
                bits,
                errors,
                ceiling,
            } => (0, bits, errors, ceiling),
        };
        say::numbers(rt, &[measured, bits, errors])?;
        if x.is_nan() {
            Ok(())
        } else {
            print!(rt; "{:016x}", x.to_bits())
        }
    }
}

// The generator's start, and the counter's.
pub(crate) fn start(case: &Case) -> Result<()> {
    let pattern = case.byte(Field::A);
    case.answered(Generator::start(pattern, case.number(Field::B)))?;
    case.answered(Counter::fresh(pattern))
}

// A buffer filled, and what its first part then holds.
pub(crate) fn fill(case: &Case, out: &mut [u8]) -> Result<()> {
    let g = Generator {
        pattern: case.byte(Field::A),
        register: case.number(Field::B),
    };
    case.answered(g.fill(out))?;
    case.left(Manner::Whole, &out[..case.up_to(Field::First, out.len())])
}

// A piece fed to the counter handed in, and that counter's report.
pub(crate) fn feed(case: &Case, piece: &[u8]) -> Result<()> {
    let c = Counter {
        pattern: case.byte(Field::A),
        filled: case.number(Field::B),
        register: case.number(Field::C),
        bits: case.number(Field::D),
        errors: case.number(Field::E),
    };
    case.answered(c.feed(piece))?;
    case.answered(c.report())
}
