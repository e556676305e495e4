// The listing program: lines of a port, an arrival and a frame; prints what the bridge answers and which clock is chosen then.
#![tactic(auto)]

use session_programs::Listing;
use std::process::ExitCode;

// Lists a capture from standard input.
fn main(rt: HostRuntime) -> ExitCode {
    stdio::run_here::<Listing>(rt)
}
