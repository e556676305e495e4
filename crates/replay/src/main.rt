// The replay program: one call of the library for each line of text, and one line printed for each.
#![tactic(auto)]

use session_programs::Replay;
use std::process::ExitCode;

// Answers lines of replay from standard input.
fn main(rt: HostRuntime) -> ExitCode {
    stdio::run_here::<Replay>(rt)
}
