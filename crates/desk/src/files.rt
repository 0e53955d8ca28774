// Files, by the bytes of their names, and the programs' arguments.
ghost use Rattle.std.specs.Prelude.{◌≤◌, length, IfOk};

use std::env::{Env, FillError};
use std::fs::{File, OpenFile};
use std::io::{Error, ErrorKind, Result, Write};

// Why an argument is the name of no file, each with the number that the system has for it.
#[derive(Clone, Copy, Debug, PartialEq, Eq)]
enum Nameless {
    NotThere = 22,
    TooLong = 36,
    NotUtf8 = 84,
}

impl From<Nameless> for Error {
    fn from(why: Nameless) -> Error {
        Error::from_raw_os_error(why as i32)
    }
}

impl From<FillError> for Nameless {
    fn from(why: FillError) -> Nameless {
        match why {
            FillError::NotPresent => Nameless::NotThere,
            FillError::TooLong => Nameless::TooLong,
        }
    }
}

// The file's name as text; std names files in UTF-8 alone.
fn named(path: &[u8]) -> Result<&str> {
    str::from_utf8(path).map_err(|_| Error::from(Nameless::NotUtf8))
}

pub(crate) fn open(rt: &HostRuntime, path: &[u8]) -> Result<File> {
    File::open(rt, named(path)?)
}

// The file, made or emptied.
pub(crate) fn create(rt: &HostRuntime, path: &[u8]) -> Result<File> {
    File::create(rt, named(path)?)
}

// The bytes in the file. What a file system takes back later it tells when it is asked to keep what it has; what is no file it does not
// keep.
pub(crate) fn fill(file: &mut File, bytes: &[u8]) -> Result<()> {
    file.write_all(bytes)?;
    match file.sync_data() {
        Err(e) if e.kind() != ErrorKind::InvalidInput => Err(e),
        _ => Ok(()),
    }
}

// Whether the program was started with an argument of that number; 0 is the program's own name.
pub(crate) fn is_given(rt: &HostRuntime, i: usize) -> bool {
    let mut first = [0u8; 1];
    !matches!(rt.arg(i, &mut first), Err(FillError::NotPresent))
}

// Whether the program was started with two arguments.
pub(crate) fn are_two(rt: &HostRuntime) -> bool {
    is_given(rt, 2) && !is_given(rt, 3)
}

// The argument of that number, a part of the buffer, or why it cannot be had.
pub(crate) fn argument<'a>(rt: &HostRuntime, i: usize, buffer: &'a mut [u8]) -> Result<&'a mut [u8]>
    ensures { IfOk result (λ part. length part.now ≤ length buffer.old) }
{
    let n = rt.arg(i, buffer).map_err(Nameless::from)?;
    // The buffer is of fixed length, and n bytes of it are the argument.
    Ok(&mut buffer[..n])
}
