// Counts the frames of a capture: listing [FILE]
#![tactic(auto)]

use std::process::ExitCode;

// Of two lines, as each program has it: its name, and its entry.
fn main(rt: HostRuntime) -> ExitCode {
    ExitCode::from(desk::lks_listing(&rt) as u8)
}
