// The stamps program: lines of a capture with latches among them; prints the grand time of each latch, and every other line as the listing does.
#![tactic(auto)]

use session_programs::Stamps;
use std::process::ExitCode;

// Answers a capture with latches from standard input.
fn main(rt: HostRuntime) -> ExitCode {
    stdio::run_here::<Stamps>(rt)
}
