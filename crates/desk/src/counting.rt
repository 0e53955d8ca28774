// The count of a whole input, buffer by buffer.
ghost use Rattle.std.specs.Prelude.{◌≡◌, IfOk, MatchResult, Err};
ghost use Rattle.input.specs.Calls.{Fits};
ghost use Rattle.desk.specs.Parts.{TurnsTo, Turn, Ran};
ghost use Rattle.desk.specs.declared.counting.Stop.TheVariants.{Unread, Refused};

use input::Input;
use lane::Totals;
use paper::Refusal;
use std::io::{Error, Read};
use tally::Tally;

// What a buffer comes to: the totals so far, or those of the whole input.
#[derive(Clone, Copy, Debug, PartialEq, Eq)]
pub(crate) enum State {
    More(Totals),
    Done(Totals),
}

// Why a run stopped before the input ended.
#[derive(Clone, Copy, Debug)]
pub(crate) enum Stop {
    Unread(Error),
    Refused,
    Endless,
}

impl From<Refusal> for Stop {
    ghost from_gives = { λ _ s. s ≡ Refused };

    fn from(_r: Refusal) -> Stop {
        Stop::Refused
    }
}

// What a buffer comes to, by what became of it: the last one ends the run.
fn turned(t: Tally, buffer: &[u8], loaded: std::io::Result<Input>) -> Result<State, Stop>
    requires { IfOk loaded (λ i. Fits i buffer.now) }
    ensures { MatchResult loaded (λ i. TurnsTo t buffer.now i result) (λ e. result ≡ Err (Unread e)) }
{
    match loaded.map_err(Stop::Unread)? {
        Input::Full => Ok(State::More(lane::count(t, buffer)?)),
        // The buffer is of fixed length, and n bytes of it were read.
        Input::Last(n) => Ok(State::Done(lane::count(t, &buffer[..n])?)),
    }
}

// One buffer of input, counted on.
fn one_turn<R: Read>(reader: &mut R, t: Tally) -> Result<State, Stop>
    ensures { IfOk result (Turn t) }
{
    let mut buffer = io::large_buffer();
    let loaded = input::load(reader, &mut buffer);
    turned(t, &buffer, loaded)
}

// The whole input. The tally is full long before the turns are used up.
pub(crate) fn all<R: Read>(reader: &mut R) -> Result<Totals, Stop>
    ensures { IfOk result Ran }
{
    let mut tally = Tally::fresh();
    for _ in 0..1u64 << 41 {
        match one_turn(reader, tally)? {
            State::More(u) => tally = u.tally,
            State::Done(u) => return Ok(u),
        }
    }
    Err(Stop::Endless)
}
