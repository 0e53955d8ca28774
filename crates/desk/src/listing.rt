// What the listing does with its input, and what it says where it cannot.
ghost use Rattle.std.specs.Prelude.{IsErr};

use crate::counting::Stop;
use crate::saying::{Said, cannot, say, show};
use crate::{counting, files};
use lane::Totals;
use std::io::{Print, Read, Write};

pub(crate) fn usage(rt: &HostRuntime) -> Result<(), Said>
    ensures { IsErr result }
{
    say(
        rt,
        b"usage: listing [FILE]; without FILE it counts the frames on standard input\n",
    )
}

// The whole text.
fn written(rt: &HostRuntime, text: &[u8]) -> std::io::Result<()> {
    rt.write_all(text)?;
    rt.stdout().flush()
}

fn print(rt: &HostRuntime, u: Totals) -> Result<(), Said> {
    let mut text = [0u8; 512];
    let n = printout::text(u, &mut text);
    // The array is of fixed length, and n bytes of it are the text.
    let listing = written(rt, &text[..n]);
    listing.or_else(|e| cannot(rt, b"listing: cannot write ", b"the whole listing", e))
}

pub(crate) fn listing_of<R: Read + Drop>(
    rt: &HostRuntime,
    mut reader: R,
    name: &[u8],
) -> Result<(), Said> {
    match counting::all(&mut reader) {
        Ok(u) => print(rt, u),
        Err(Stop::Unread(e)) => cannot(rt, b"listing: cannot read ", name, e),
        Err(Stop::Refused) => say(rt, b"listing: more than 2^53 - 1 frames or check flips\n"),
        Err(Stop::Endless) => say(rt, b"listing: the input has no end\n"),
    }
}

fn listing_of_path(rt: &HostRuntime, path: &mut [u8]) -> Result<(), Said> {
    let opened = files::open(rt, path);
    show(path);
    match opened {
        Ok(file) => listing_of(rt, file, path),
        Err(e) => cannot(rt, b"listing: cannot open ", path, e),
    }
}

// The file that the first argument names. What begins with '-' asks for something that there is not.
pub(crate) fn listing_of_file(rt: &HostRuntime) -> Result<(), Said> {
    let mut buffer = io::buffer();
    let path = match files::argument(rt, 1, &mut buffer) {
        Ok(path) => path,
        Err(e) => return cannot(rt, b"listing: cannot open ", b"the file", e),
    };
    if path.starts_with(b"-") {
        return usage(rt);
    }
    listing_of_path(rt, path)
}
