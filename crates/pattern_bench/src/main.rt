// Work for a count of instructions. The first byte on standard input says what to do, f or c with pattern 11, F or C with
// pattern 31: fill or count. Each byte after it asks for a round of 4,096 bytes.
#![tactic(auto)]

ghost use Rattle.std.specs.Prelude.{◌≤◌, length};

use paper::Refusal;
use pattern::{Counter, Generator};
use std::io;
use std::io::Read;

// The register after the rounds.
fn fill_rounds(pattern: u8, rounds: usize) -> Result<u64, Refusal> {
    let mut g = Generator::start(pattern, 1)?;
    let mut out = [0u8; 4096];
    for _ in 0..rounds {
        g = g.fill(&mut out)?;
    }
    Ok(g.register)
}

// The errors after the rounds.
fn count_rounds(pattern: u8, rounds: usize) -> Result<u64, Refusal> {
    let mut c = Counter::fresh(pattern)?;
    let piece = [0x5au8; 4096];
    for _ in 0..rounds {
        c = c.feed(&piece)?;
    }
    Ok(c.errors)
}

// A letter of standard input stands for the work: what comes from outside is text.
fn answer(work: u8, rounds: usize) -> Result<u64, Refusal> {
    match work {
        b'f' => fill_rounds(11, rounds),
        b'F' => fill_rounds(31, rounds),
        b'c' => count_rounds(11, rounds),
        b'C' => count_rounds(31, rounds),
        _ => Ok(0),
    }
}

// Reads until the buffer is full, the input ends or a read fails; how many bytes are there. By hand: where a read fails, `load` of
// input hands on the error and not how many bytes came before it; and a read hands over any number of bytes, so no range counts the
// turns.
fn filled<R: Read>(reader: &mut R, buffer: &mut [u8]) -> usize
    ensures { result ≤ length buffer.new }
{
    let mut have = 0;
    while have < buffer.len() {
        let Ok(n) = reader.read(&mut buffer[have..]) else {
            return have;
        };
        if n == 0 {
            return have;
        }
        have += n;
    }
    have
}

fn main(rt: HostRuntime) -> io::Result<()> {
    let mut input = [0u8; 4096];
    let n = filled(&mut rt.stdin(), &mut input);
    if 0 < n {
        let count = answer(input[0], n - 1).unwrap_or(0);
        println!(rt; "{count}")?;
    }
    Ok(())
}
