// Stamp: the grand time of a latch, by the chosen clock.
#![tactic(auto)]

ghost use Rattle.bridge.specs.State.{Lawful};
ghost use Rattle.recorder.specs.Promises.{StampPromise};

use bridge::Bridge;
use refusals::Refusal;
use times::{GrandTime, LocalTime};

// Stamp: the grand time of a latched local time, by the chosen clock. The state stays as it is.
pub fn stamp(b: Bridge, latch: u64) -> Result<GrandTime, Refusal>
    requires { Lawful b }
    ensures { StampPromise b latch result }
{
    if bridge_arguments::off_circle(latch) {
        return Err(Refusal::OutOfRange);
    }
    let Some(choice) = choice_ranking::candidate_at(&b.ranking, choice_ranking::CHOSEN) else {
        return Err(Refusal::NoClock);
    };
    let samples = bridge_samples::samples(&b.clock, &b.ports, choice.number);
    recorder::through(samples, LocalTime(latch))
}
