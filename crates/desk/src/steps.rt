// The lines of a long division. Columns 16 to 78 are for the coefficients of x^62 to x^0.
ghost use Rattle.std.specs.Prelude.{◌≡◌, ◌+◌, ◌%◌, ◌^◌, ◌<◌, ◌≤◌};
ghost use Rattle.poly.specs.Steps.{left_after};
ghost use Rattle.desk.specs.Parts.{Shows};

use std::io::{Print, Result};

// What is divided: the coefficients of a word.
#[derive(Clone, Copy, Debug, PartialEq, Eq)]
pub(crate) struct Dividend {
    pub(crate) v: u64,
    ghost word: { v < 2 ^ 63 },
}

fn digit(n: u64) -> u8
    ensures { result ≡ 48 + n % 10 }
{
    b'0' + (n % 10) as u8
}

// The tens of a number of two digits, as a column shows them.
fn tens(n: u64) -> u8 {
    if n < 10 { b' ' } else { digit(n / 10) }
}

// By hand: the columns are places of an array, as `Shows` has them.

// What stands before the coefficients in the line of a step: its number, the power that it looks at and the coefficient a that it finds.
fn front(step: u64, power: u64, a: u64) -> [u8; 16] {
    let mut line = [b' '; 16];
    line[2] = tens(step);
    line[3] = digit(step);
    line[7] = b'x';
    line[8] = b'^';
    line[9] = tens(power);
    line[10] = digit(power);
    line[13] = digit(a);
    line
}

// The coefficients of r in their columns, from that of x^(62-first) to that of x^(63-end), and a line end.
fn columns(r: u64, first: usize, end: usize) -> [u8; 64]
    requires { (first ≤ end) × (end ≤ 63) }
    ensures { Shows r first end result }
{
    let mut line = [b' '; 64];
    for i in first..end {
        line[i] = digit((r >> (62 - i)) % 2);
    }
    line[end] = b'\n';
    line
}

// A line: its front, and those columns.
pub(crate) fn show(rt: &HostRuntime, front: &[u8], r: u64, first: usize, end: usize) -> Result<()>
    requires { (first ≤ end) × (end ≤ 63) }
{
    let line = columns(r, first, end);
    rt.write_all(front)?;
    rt.write_all(&line[..end + 1])
}

impl Dividend {
    // What is left after j steps: the last 51 - j coefficients as they were, and the remainder of those that lead.
    fn left_after(self, j: u64) -> u64
        requires { j ≤ 51 }
        ensures { result ≡ left_after self.v j }
    {
        let m = 51 - j;
        let leading = self.v >> m;
        (poly::remainder(leading) << m) + (self.v - (leading << m))
    }

    // The lines of the step after j others: what it takes away, where it does, and what is left.
    fn show_step(self, rt: &HostRuntime, j: u64) -> Result<()>
        requires { j < 51 }
    {
        let before = self.left_after(j);
        let after = self.left_after(j + 1);
        let a = (before >> (62 - j)) % 2;
        if a == 1 {
            show(
                rt,
                b"                ",
                before ^ after,
                j as usize,
                (j + 13) as usize,
            )?;
        }
        show(rt, &front(j + 1, 62 - j, a), after, (j + 1) as usize, 63)
    }

    // The lines of all 51 steps.
    pub(crate) fn show_steps(self, rt: &HostRuntime) -> Result<()> {
        for j in 0..51 {
            self.show_step(rt, j)?;
        }
        Ok(())
    }
}
