// What salvage does with a capture, and what it says where it cannot.
ghost use Rattle.std.specs.Prelude.{IsErr};
ghost use Rattle.desk.specs.Parts.{Entries};

use crate::outcome::{Account, Lost};
use crate::saying::{Said, cannot, refusal, say, show};
use crate::{files, outcome};
use input::Input;
use salvage::Counts;
use std::fs::File;

pub(crate) fn usage(rt: &HostRuntime) -> Result<(), Said>
    ensures { IsErr result }
{
    say(
        rt,
        b"usage: salvage IN OUT; the capture in the file IN is salvaged into the file OUT\n",
    )
}

// How many frames the salvaged capture has.
fn frames_of(file: &[u8]) -> u64 {
    capture::head(file).map_or(0, |h| h.count as u64)
}

// The account on standard output, of lists with so many entries.
fn account(
    rt: &HostRuntime,
    frames: u64,
    k: Counts,
    altered: &[u64],
    places: &[u64],
    refused: &[u64],
) -> Result<(), Said>
    requires { Entries k altered.now places.now refused.now }
{
    let account = Account {
        frames,
        altered: &altered[..k.altered],
        places: &places[..k.altered],
        refused: &refused[..k.refused],
    };
    account.tell(rt).or_else(|e| cannot(rt, b"salvage: cannot write ", b"the whole account", e))
}

// The file OUT: its name, and whether it is the file that was read.
#[derive(Drop)]
struct Target<'a> {
    name: &'a mut [u8],
    is_read: bool,
}

impl Target<'_> {
    // The salvaged capture, in its file.
    fn written(&mut self, rt: &HostRuntime, file: &[u8]) -> Result<(), Said> {
        let out = outcome::put_out(rt, self.name, file);
        show(self.name);
        match out {
            Ok(()) => Ok(()),
            Err(Lost::Unopened(e)) => cannot(rt, b"salvage: cannot open ", self.name, e),
            Err(Lost::Unwritten(e)) => cannot(rt, b"salvage: cannot write ", self.name, e),
        }
    }

    // The same, where that file is not the one that was read.
    fn delivered(&mut self, rt: &HostRuntime, file: &[u8]) -> Result<(), Said> {
        if self.is_read {
            return say(rt, b"salvage: IN and OUT are one file\n");
        }
        self.written(rt, file)
    }
}

// A capture, by the bytes of its file.
fn salvage_of(rt: &HostRuntime, file: &mut [u8], to: &mut Target<'_>) -> Result<(), Said> {
    let mut altered = [0u64; 8000];
    let mut places = [0u64; 8000];
    let mut refused = [0u64; 8000];
    match salvage::salvage(file, &mut altered, &mut places, &mut refused) {
        Ok(k) => {
            to.delivered(rt, file)?;
            account(rt, frames_of(file), k, &altered, &places, &refused)
        }
        Err(r) => refusal(rt, b"salvage: the capture is refused: ", r),
    }
}

// A byte more than a capture may have, so that a longer file is seen to be longer.
fn salvage_of_open(
    rt: &HostRuntime,
    mut opened: File,
    from: &[u8],
    to: &mut Target<'_>,
) -> Result<(), Said> {
    let mut file = [0u8; 65537];
    match input::load(&mut opened, &mut file) {
        Ok(Input::Full) => salvage_of(rt, &mut file, to),
        // The buffer is of fixed length, and n bytes of it were read.
        Ok(Input::Last(n)) => salvage_of(rt, &mut file[..n], to),
        Err(e) => cannot(rt, b"salvage: cannot read ", from, e),
    }
}

// The file that is read stays open: where standard output is closed, no file that is written takes its place.
fn salvage_of_paths(rt: &HostRuntime, from: &mut [u8], to: &mut Target<'_>) -> Result<(), Said> {
    let opened = files::open(rt, from);
    show(from);
    match opened {
        Ok(file) => salvage_of_open(rt, file, from, to),
        Err(e) => cannot(rt, b"salvage: cannot open ", from, e),
    }
}

// The files that the arguments name. What begins with '-' asks for something that there is not.
pub(crate) fn salvage_of_files(rt: &HostRuntime, one: bool) -> Result<(), Said> {
    let mut buffer = io::buffer();
    let from = match files::argument(rt, 1, &mut buffer) {
        Ok(from) => from,
        Err(e) => return cannot(rt, b"salvage: cannot open ", b"the file IN", e),
    };
    let mut buffer = io::buffer();
    let to = match files::argument(rt, 2, &mut buffer) {
        Ok(to) => to,
        Err(e) => return cannot(rt, b"salvage: cannot open ", b"the file OUT", e),
    };
    if from.starts_with(b"-") || to.starts_with(b"-") {
        return usage(rt);
    }
    let mut to = Target {
        name: to,
        is_read: one,
    };
    salvage_of_paths(rt, from, &mut to)
}
