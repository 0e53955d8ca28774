// What the programs say on standard error.
ghost use Rattle.std.specs.Prelude.{IsErr};

use crate::reason::Reason;
use paper::Refusal;
use std::io::{Eprint, Error, Print};

// A line on standard error says why the work is not done.
#[derive(Clone, Copy, Debug, PartialEq, Eq)]
pub(crate) struct Said;

// Where standard error cannot be written, there is nobody left to tell.
fn put(rt: &HostRuntime, text: &[u8]) {
    let _ = rt.stderr().write_all(text);
}

// The end of a line: what it is about, and why.
fn because(rt: &HostRuntime, this: &[u8], why: Error) {
    put(rt, this);
    put(rt, b": ");
    put(rt, Reason::of(why).text().as_bytes());
    put(rt, b"\n");
}

// A line on standard error: it cannot do that with this, and why.
pub(crate) fn cannot(rt: &HostRuntime, do_it: &[u8], this: &[u8], why: Error) -> Result<(), Said>
    ensures { IsErr result }
{
    put(rt, do_it);
    because(rt, this, why);
    Err(Said)
}

pub(crate) fn say(rt: &HostRuntime, line: &[u8]) -> Result<(), Said>
    ensures { IsErr result }
{
    put(rt, line);
    Err(Said)
}

// A line on standard error: the paper's number of a refusal, after what is refused.
pub(crate) fn refusal(rt: &HostRuntime, this: &[u8], r: Refusal) -> Result<(), Said>
    ensures { IsErr result }
{
    put(rt, this);
    let _ = rt.eprint(r);
    say(rt, b"\n")
}

// A byte as it is shown: a control character, such as a line end, is a question mark.
fn shown(b: u8) -> u8 {
    if b < b' ' { b'?' } else { b }
}

// A name that stays on its line.
pub(crate) fn show(name: &mut [u8]) {
    for b in name.iter_mut() {
        *b = shown(*b);
    }
}
