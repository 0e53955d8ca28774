// Divides the frame of a data word by g, step by step: division, with 16 hexadecimal digits on standard input
#![tactic(auto)]

use std::process::ExitCode;

// Of two lines, as each program has it: its name, and its entry.
fn main(rt: HostRuntime) -> ExitCode {
    ExitCode::from(desk::lks_division(&rt) as u8)
}
