// The test of the table of passes left: that at every hop it has what the rule gives.
#![tactic(auto)]

use choice_passes::table;
use std::io;

// Says that the table agrees, which is proved of it.
fn main(rt: HostRuntime) -> io::Result<()> {
    let holds = choice_passes::agrees(&table::PASSES);
    prove!(holds);
    println!(rt; "the table of passes left agrees with the rule at every hop")
}
