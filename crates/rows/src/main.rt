// Runs the rows of the paper's bench numbers, and the examples that users check by hand, through the calls.
#![tactic(auto)]

use paper::Refusal;
use reader::{Flips, Word};
use std::{fmt, io};

// A frame that was made.
#[derive(Clone, Copy)]
struct Frame(u64);

impl fmt::Display for Frame {
    fn fmt<W: fmt::Write>(&self, f: &mut fmt::Formatter<W>) -> fmt::Result {
        write!(f, "frame {:016x}", self.0)
    }
}

// The flips that were undone.
#[derive(Clone, Copy)]
struct Undone(Flips);

impl fmt::Display for Undone {
    fn fmt<W: fmt::Write>(&self, f: &mut fmt::Formatter<W>) -> fmt::Result {
        match self.0 {
            Flips::Nowhere => write!(f, "no flips"),
            Flips::One(a) => write!(f, "flip at {a}"),
            Flips::Two(a, b) => write!(f, "flips at {a} and {b}"),
        }
    }
}

// A word that was read.
#[derive(Clone, Copy)]
struct Found(Word);

impl fmt::Display for Found {
    fn fmt<W: fmt::Write>(&self, f: &mut fmt::Formatter<W>) -> fmt::Result {
        let w = self.0;
        let flips = Undone(w.flips);
        let check_flips = w.check_flips;
        let pad = if w.pad_wrong { "wrong" } else { "right" };
        write!(
            f,
            "data {:012x}, {flips}, check flips {check_flips}, pad {pad}",
            w.data
        )
    }
}

fn answered<T: fmt::Display + Drop>(rt: &HostRuntime, r: Result<T, Refusal>) -> io::Result<()> {
    match r {
        Ok(x) => println!(rt; ": {x}"),
        Err(e) => println!(rt; ": {e}"),
    }
}

// The two calls are named one by one: each has its word, its digits and what it answers.
fn make(rt: &HostRuntime, data: u64) -> io::Result<()> {
    print!(rt; "make {data:012x}")?;
    answered(rt, maker::make(data).map(Frame))
}

fn read(rt: &HostRuntime, bits: u64) -> io::Result<()> {
    print!(rt; "read {bits:016x}")?;
    answered(rt, reader::read(bits).map(Found))
}

fn main(rt: HostRuntime) -> io::Result<()> {
    for data in [0, 0xFFFF_FFFF_FFFF, 0x0000_FFFF_0000, 0x1_0000_0000_0000] {
        make(&rt, data)?;
    }
    for bits in [
        0x0000_8000_4000_3565,
        0x8000_8000_4000_3567,
        0x0000_8000_4000_356B,
        0x0000_8000_4000_3564,
        0x0000_8000_4000_B565,
        0x8000_8400_4020_3565,
        0,
        0xFFFF_FFFF_FFFF_FFFF,
    ] {
        read(&rt, bits)?;
    }
    Ok(())
}
