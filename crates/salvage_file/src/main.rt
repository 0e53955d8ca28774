// Mends a capture into another file: salvage IN OUT
#![tactic(auto)]

use std::env::Env;
use std::fs;
use std::os::unix::fs::MetadataExt;
use std::process::ExitCode;

// Whether the names lead to one file: no two files of a system have the same device and number.
fn is_one_file(rt: &HostRuntime, a: &str, b: &str) -> bool {
    match (fs::metadata(rt, a), fs::metadata(rt, b)) {
        (Ok(of_a), Ok(of_b)) => of_a.dev() == of_b.dev() && of_a.ino() == of_b.ino(),
        _ => false,
    }
}

// The same, of names that may be no text.
fn are_one_file(rt: &HostRuntime, a: &[u8], b: &[u8]) -> bool {
    match (str::from_utf8(a), str::from_utf8(b)) {
        (Ok(from), Ok(to)) => is_one_file(rt, from, to),
        _ => false,
    }
}

// Whether the first two arguments name one file. A name with no room in the buffer is none that the system has a file of.
fn is_asked_of_one(rt: &HostRuntime) -> bool {
    let mut from = [0u8; 4096];
    let mut to = [0u8; 4096];
    match (rt.arg(1, &mut from), rt.arg(2, &mut to)) {
        // The buffers are of fixed length, and so many bytes of each are the name.
        (Ok(n), Ok(m)) => are_one_file(rt, &from[..n], &to[..m]),
        _ => false,
    }
}

fn main(rt: HostRuntime) -> ExitCode {
    let one = i32::from(is_asked_of_one(&rt));
    ExitCode::from(desk::lks_salvage(&rt, one) as u8)
}
