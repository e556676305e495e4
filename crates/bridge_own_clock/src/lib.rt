// Own clock: a reading of the station's own clock.
#![tactic(auto)]

ghost use Rattle.std.specs.Prelude.{◌≡◌};
ghost use Rattle.bridge.specs.State.{Lawful};
ghost use Rattle.bridge.specs.Own.{own_clock_of};
ghost use Rattle.bridge.specs.Promises.{DonePromise};

use bridge::{Bridge, Done};
use refusals::Refusal;
use times::{GrandTime, LocalTime};

// Own clock in a state that it is lent.
#[tactic(auto, unfolding(bridge::specs::Own::own_clock_of))]
fn read(b: &mut Bridge, count: u8, seconds: u64, fraction: u64, at: u64) -> Result<(), Refusal>
    requires { Lawful b.old }
    ensures { record { next = b.new; answer = result } ≡ own_clock_of b.old count seconds fraction at }
{
    bridge_arguments::own_clock_refusal(b.setup.capable, seconds, fraction, at)?;
    let reading = port_clock::own_clock(
        b.clock,
        count,
        GrandTime(seconds, fraction),
        LocalTime(at),
    );
    b.clock = reading.after;
    reading.answer
}

// Own clock: a reading of it, whose grand time belongs to the local time of the preceding one. Its arguments are numbers, in range or not (`own_clock_of`).
pub fn own_clock(b: Bridge, count: u8, seconds: u64, fraction: u64, at: u64) -> Done<()>
    requires { Lawful b }
    ensures { DonePromise (own_clock_of b count seconds fraction at) result }
{
    let mut next = b;
    let answer = read(&mut next, count, seconds, fraction, at);
    Done { next, answer }
}
