// Step 1: the rate of one clock against another, in parts of 2^35, and what it makes of a stretch of time.
#![tactic(auto)]

ghost use Rattle.std.specs.Prelude.{◌≡◌, ◌<◌, ◌≤◌, ◌^◌, pos, nat_abs};
ghost use Rattle.samples.specs.Rate.{Limits, gain_of, rate_of, scaled_of, advance_of, rate_within, neighbour_rate_of, longest_spread, steepest};

use samples::Pair;
use times::{LocalTime, local};

// The shortest and the longest spread over which a rate is taken.
const SHORTEST: u64 = 0x4000_0000;

const LONGEST: u64 = 0x80_0000_0000;

// The least spread for one unit of gain.
const PER_GAIN: u64 = 4000;

// The parts in which a rate counts, with a sign and without: `i64::from` has no u64, and `From` is no const.
const ONE: i64 = 0x8_0000_0000;

const PARTS: u64 = 0x8_0000_0000;

// What a clock that rose by `rise` gained over a spread s, where the limits hold.
pub fn gained(rise: u64, s: u64) -> Option<i64>
    requires { rise < 2 ^ 48 }
    ensures { result ≡ gain_of (pos rise) s }
{
    if s < SHORTEST || LONGEST < s {
        return None;
    }
    let d = numbers_whole::difference(rise, s);
    if numbers_whole::abs(d) * PER_GAIN <= s {
        Some(d)
    } else {
        None
    }
}

// The rate of a gain d over a spread s, to the nearest part.
pub fn rate(d: i64, s: u64) -> i64
    requires { Limits d s }
    ensures { result ≡ rate_of d s }
{
    numbers_whole::nearest_div(numbers_whole::mul(d, ONE), s)
}

// What a clock of this rate gains over a stretch u.
// A rate is a plain i64, and its bound a clause: the definitions and laws speak of whole numbers (`scaled_of`, `advance_of`, `advance_small`, `ppm_exact`).
pub fn scaled(rate: i64, u: i64) -> i64
    requires { (nat_abs rate ≤ steepest) × (nat_abs u ≤ longest_spread) }
    ensures { result ≡ scaled_of rate u }
{
    numbers_whole::floor_div(numbers_whole::mul(rate, u), PARTS)
}

// How far the other clock moves on over a stretch u of this one.
pub fn advance(rate: i64, u: i64) -> i64
    requires { (nat_abs rate ≤ steepest) × (nat_abs u ≤ longest_spread) }
    ensures { result ≡ advance_of rate u }
{
    numbers_whole::add(u, scaled(rate, u))
}

// The rate of a clock that rose by `rise` over a spread s, 0 where the limits do not hold.
#[tactic(auto, using(samples::proofs::RateLaws::within_gain))]
pub fn rate_of_rise(rise: u64, s: u64) -> i64
    requires { rise < 2 ^ 48 }
    ensures { result ≡ rate_within (gain_of (pos rise) s) s }
{
    gained(rise, s).map_or(0, |d| rate(d, s))
}

// The neighbour's rate, from the stored pair to the new one; 0 where there is none.
#[tactic(auto, unfolding(samples::specs::Rate::neighbour_rate_of), using(times::proofs::TimeLaws::since_lt))]
pub fn neighbour_rate(pair: Option<Pair>, local: LocalTime, p: LocalTime) -> i64
    ensures { result ≡ neighbour_rate_of pair local p }
{
    pair.map_or(0, |pair| {
        rate_of_rise(local::since(p, pair.here), local::since(local, pair.there))
    })
}
