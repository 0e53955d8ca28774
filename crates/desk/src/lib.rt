// The programs for users. An entry does the whole of its program's work and answers the status.
#![tactic(auto)]

ghost use Rattle.std.specs.Prelude.{◌≡◌, pos, OnOk, OnErr};
ghost use Rattle.desk.specs.Calls.{Status};
ghost use Rattle.desk.specs.Parts.{Said};

mod asking;
mod counting;
mod dividing;
mod files;
mod listing;
mod outcome;
mod reason;
mod salvaging;
mod saying;
mod steps;

// A status is the number that the program ends with: that is what the entries answer and `Status` speaks of.

// All of the work is done.
const DONE: i32 = 0;

// Something was said on standard error.
const SAID: i32 = 1;

// The status of a program by what became of its work.
fn status(work: Result<(), saying::Said>) -> i32
    ensures is_one { Status result }
    ensures done { OnOk work (result ≡ pos 0) }
    ensures said { OnErr work (Said result) }
{
    match work {
        Ok(()) => DONE,
        Err(_) => SAID,
    }
}

// listing [FILE]: the listing of the frames in FILE, or on standard input.
pub fn lks_listing(rt: &HostRuntime) -> i32
    ensures { Status result }
{
    if !files::is_given(rt, 1) {
        return status(listing::listing_of(rt, rt.stdin(), b"standard input"));
    }
    if files::is_given(rt, 2) {
        return status(listing::usage(rt));
    }
    status(listing::listing_of_file(rt))
}

// salvage IN OUT: the capture in the file IN, salvaged into the file OUT, and an account of it on standard output. `one` is not 0 where
// both are one file, which is then not written.
pub fn lks_salvage(rt: &HostRuntime, one: i32) -> i32
    ensures { Status result }
{
    if !files::are_two(rt) {
        return status(salvaging::usage(rt));
    }
    status(salvaging::salvage_of_files(rt, one != 0))
}

// division: the long division that gives the check bits of the data word on standard input, step by step.
pub fn lks_division(rt: &HostRuntime) -> i32
    ensures { Status result }
{
    if files::is_given(rt, 1) {
        return status(dividing::usage(rt));
    }
    status(dividing::division_of_input(rt))
}
