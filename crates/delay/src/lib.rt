// Step 2: the link delay, fixed or measured.
#![tactic(auto)]

ghost use Rattle.std.specs.Prelude.{◌≡◌, ◌≤◌, nat_abs};
ghost use Rattle.samples.specs.Rate.{neighbour_rate_of, steepest};
ghost use Rattle.delay.specs.Delay.{longest_trip, delay_of, measured_of, link_delay_of};

use refusals::Refusal;
use samples::Pair;
use times::{LocalTime, local};

// How a port comes by its link delay. `Measured` is a setting, and no delay that is missing: so it is no `Option`.
#[derive(Clone, Copy)]
pub enum DelaySetting {
    Measured,
    Fixed(u64),
}

// The longest round trip and turn, and the longest delay.
const LONGEST_TRIP: u64 = 0x80_0000_0000;

pub const LONGEST_DELAY: u64 = 0x4000_0000;

// A trip goes both ways.
const WAYS: u64 = 2;

// The bound of a rate is a clause, and the rate a plain i64: `delay_of` and `measured_of`, which say the delay, are functions of whole numbers.

// Half of what the round trip has beyond the neighbour's turn.
pub fn half_trip(rate: i64, trip: u64, turn: u64) -> u64
    requires { (nat_abs rate ≤ steepest) × (trip ≤ longest_trip) × (turn ≤ longest_trip) }
    ensures { result ≡ delay_of rate trip turn }
{
    let here = samples_rate::advance(rate, numbers_whole::from_unsigned(turn));
    let both = numbers_whole::sub(numbers_whole::from_unsigned(trip), here);
    numbers_whole::at_least_zero(numbers_whole::floor_div(both, WAYS))
}

// The measured delay, unless a part of it is too long.
pub fn measured_delay(rate: i64, trip: u64, turn: u64) -> Result<u64, Refusal>
    requires { nat_abs rate ≤ steepest }
    ensures { result ≡ measured_of rate trip turn }
{
    if LONGEST_TRIP < trip || LONGEST_TRIP < turn {
        return Err(Refusal::DelayTooLong);
    }
    let delay = half_trip(rate, trip, turn);
    if LONGEST_DELAY < delay {
        Err(Refusal::DelayTooLong)
    } else {
        Ok(delay)
    }
}

// The link delay by the port's setting, for a frame with these times whose preceding one arrived at p.
#[tactic(auto, unfolding(crate::specs::Delay::link_delay_of))]
pub fn link_delay(
    setting: DelaySetting,
    pair: Option<Pair>,
    local: LocalTime,
    p: LocalTime,
    tx: LocalTime,
    rx: LocalTime,
) -> Result<u64, Refusal>
    ensures { result ≡ link_delay_of setting (neighbour_rate_of pair local p) local p tx rx }
{
    match setting {
        DelaySetting::Fixed(delay) => Ok(delay),
        DelaySetting::Measured if tx.0 == 0 && rx.0 == 0 => Ok(0),
        DelaySetting::Measured => measured_delay(
            samples_rate::neighbour_rate(pair, local, p),
            local::since(p, tx),
            local::since(local, rx),
        ),
    }
}
