// The line through the oldest and the newest kept sample of a clock: a reading of it, the grand time that is sent, and the clock's drift.
#![tactic(auto)]

ghost use Rattle.std.specs.Prelude.{◌≡◌, ◌≤◌, pos, nat_abs, ◌+ℤ◌};
ghost use Rattle.times.specs.Times.{InRange, moment_of};
ghost use Rattle.samples.specs.Rate.{steepest};
ghost use Rattle.timeline.specs.Line.{InReach, reading_by};

use samples::Sample;
use times::{ErrorTime, GrandTime, grand};

pub mod departure;
pub mod ppm;

// The grand time and errorTime of a frame to be sent.
#[derive(Clone, Copy)]
pub struct Sent {
    pub grand: GrandTime,
    pub error: ErrorTime,
}

// A clock's drift: too few samples, exact parts per million, or no such clock.
// An enum of its own: document 01 answers Drift in these three forms (`drift_no`, `drift_reading`), and no reading is no refusal.
#[derive(Clone, Copy)]
pub enum Drift {
    NoReading,
    PartsPerMillion(f64),
    Refused,
}

// The bound of a rate is a clause, here and in the modules below: `reading_by`, `error_by` and `ppm_of`, and the laws `step_small`, `error_small` and `ppm_exact`, speak of plain whole numbers.

// The line of this rate read at a distance x from the newest sample, before it where x is below zero, and `more` added.
pub fn reading(newest: Sample, rate: i64, x: i64, more: u64) -> Option<GrandTime>
    requires in_range { InRange newest.grand }
    requires rate_bound { nat_abs rate ≤ steepest }
    requires in_reach { InReach x more }
    ensures { result ≡ moment_of (reading_by rate newest x +ℤ pos more) }
{
    let advance = samples_rate::advance(rate, x);
    grand::moved(
        newest.grand,
        numbers_whole::add(advance, numbers_whole::from_unsigned(more)),
    )
}
