// What division does with a data word, and what it says where it cannot.
ghost use Rattle.std.specs.Prelude.{IsErr};

use crate::saying::{Said, cannot, refusal, say};
use crate::steps::Dividend;
use crate::{asking, steps};
use input::Input;
use std::io::{Print, Write};

pub(crate) fn usage(rt: &HostRuntime) -> Result<(), Said>
    ensures { IsErr result }
{
    say(
        rt,
        b"usage: division; the data word, 16 hexadecimal digits, is read from standard input\n",
    )
}

// A line: its front, and x as 16 hexadecimal digits.
fn show_number(rt: &HostRuntime, front: &[u8], x: u64) -> std::io::Result<()> {
    rt.write_all(front)?;
    rt.write_all(&printout::hex_digits(x))?;
    rt.write_all(b"\n")
}

// The lines ahead of the steps: the data word, and v, which is divided.
fn show_dividend(rt: &HostRuntime, data: u64, v: u64) -> std::io::Result<()> {
    show_number(rt, b"data            ", data)?;
    rt.write_all(b"step  power  a  u(x) x^12, and what is left of it after each step\n")?;
    steps::show(rt, b"                ", v, 0, 63)
}

// The lines after the steps: the remainder, the code word, the pad in the column of x^62, and the frame.
fn show_frame(rt: &HostRuntime, frame: u64) -> std::io::Result<()> {
    let word = frame / 2;
    steps::show(rt, b"b(x)            ", word, 51, 63)?;
    steps::show(rt, b"v(x)            ", word, 0, 63)?;
    steps::show(rt, b"pad             ", frame << 62, 0, 1)?;
    show_number(rt, b"frame           ", frame)
}

// The whole table: that of the frame's word with its check bits 0.
fn written(rt: &HostRuntime, data: u64, frame: u64) -> std::io::Result<()> {
    let v = frame / 8192 * 4096;
    show_dividend(rt, data, v)?;
    Dividend { v }.show_steps(rt)?;
    show_frame(rt, frame)?;
    rt.stdout().flush()
}

fn division_of(rt: &HostRuntime, data: u64) -> Result<(), Said> {
    let frame = match maker::make(data) {
        Ok(frame) => frame,
        Err(r) => return refusal(rt, b"division: the data word is refused: ", r),
    };
    let table = written(rt, data, frame);
    table.or_else(|e| cannot(rt, b"division: cannot write ", b"the whole table", e))
}

// A byte more than a word and its line end have, so that a longer input is seen to be longer.
pub(crate) fn division_of_input(rt: &HostRuntime) -> Result<(), Said> {
    let mut text = [0u8; 19];
    let asked = match input::load(&mut rt.stdin(), &mut text) {
        Ok(Input::Full) => None,
        // The buffer is of fixed length, and n bytes of it were read.
        Ok(Input::Last(n)) => asking::word_of(&text[..n]),
        Err(e) => return cannot(rt, b"division: cannot read ", b"standard input", e),
    };
    match asked {
        Some(data) => division_of(rt, data),
        None => say(
            rt,
            b"division: standard input is not 16 hexadecimal digits\n",
        ),
    }
}
