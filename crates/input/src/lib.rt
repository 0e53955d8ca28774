// What programs read, a buffer at a time.
#![tactic(auto)]

ghost use Rattle.std.specs.Prelude.{◌≡◌, IfOk};
ghost use Rattle.input.specs.Calls.{Fits, Loads};
ghost use Rattle.input.specs.Parts.{came_of, step_of};

use std::io;
use std::io::Read;

// What became of a buffer: the input filled it, or ended after so many bytes.
#[derive(Clone, Copy, Debug, PartialEq, Eq)]
pub enum Input {
    Full,
    Last(usize),
}

// What a read comes to: so many bytes are there and more may come, or the buffer is done with.
#[derive(Clone, Copy, Debug, PartialEq, Eq)]
enum Step {
    More(usize),
    Over(Input),
}

// What a read of n bytes comes to, for a buffer of `size` of which `have` were there.
fn came(n: usize, have: usize, size: usize) -> Step
    ensures { result ≡ came_of n have size }
{
    if have < size && n < size - have {
        return Step::More(have + n);
    }
    Step::Over(Input::Full)
}

// What a read comes to that answered `got`: a failure is handed on as it came, and no other read is told as one.
#[tactic(auto, unfolding(crate::specs::Parts::step_of))]
fn after_read(got: io::Result<usize>, have: usize, size: usize) -> io::Result<Step>
    ensures { result ≡ step_of got have size }
{
    let n = got?;
    if n == 0 {
        return Ok(Step::Over(Input::Last(have)));
    }
    Ok(came(n, have, size))
}

// Reads until the buffer is full or the input ends. A read may hand over any number of bytes, so no range counts the turns, and
// `read_exact` does not say how many came before the end.
pub fn load<R: Read>(reader: &mut R, buffer: &mut [u8]) -> io::Result<Input>
    ensures fits { IfOk result (λ i. Fits i buffer.new) }
    ensures bytes { IfOk result (λ i. Loads (R.remaining reader.old) (R.remaining reader.new) i buffer.new) }
{
    let mut have = 0;
    while have < buffer.len() {
        let got = reader.read(&mut buffer[have..]);
        match after_read(got, have, buffer.len())? {
            Step::More(filled) => have = filled,
            Step::Over(i) => return Ok(i),
        }
    }
    Ok(Input::Full)
}
