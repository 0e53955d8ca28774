// The counter's report: bits compared, errors, and how often they came.
ghost use Rattle.std.specs.Prelude.{◌≡◌, ◌≤◌};
ghost use Rattle.paper.specs.Numbers.{most_counted};
ghost use Rattle.pattern.specs.Reporting.{figures};
ghost use Rattle.pattern.specs.Answers.{figures_in};
ghost use Rattle.pattern.specs.Calls.{Reports};

use crate::counter::Counter;
use paper::Refusal;

#[derive(Clone, Copy, Debug, PartialEq)]
pub enum Report {
    // Errors were found: their ratio to the bits.
    Measured {
        bits: u64,
        errors: u64,
        ratio: f64,
    },
    // None was: three divided by the bits.
    Ceiling {
        bits: u64,
        errors: u64,
        ceiling: f64,
    },
}

fn rated(bits: u64, errors: u64) -> Report
    requires { (bits ≤ most_counted) × (errors ≤ bits) }
    ensures { figures_in result ≡ figures bits errors }
{
    if errors == 0 {
        return Report::Ceiling {
            bits,
            errors,
            ceiling: 3.0 / (bits as f64),
        };
    }
    Report::Measured {
        bits,
        errors,
        ratio: (errors as f64) / (bits as f64),
    }
}

impl Counter {
    // 11: a state out of its range; 19: nothing compared.
    pub fn report(self) -> Result<Report, Refusal>
        ensures { Reports self result }
    {
        let known = self.in_range();
        let bits = self.bits;
        if !known {
            return Err(Refusal::Outside);
        }
        if bits == 0 {
            return Err(Refusal::NothingCompared);
        }
        Ok(rated(bits, self.errors))
    }
}
