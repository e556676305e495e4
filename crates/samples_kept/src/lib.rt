// Step 4: which samples are kept, and the two of them that a line is read off.
#![tactic(auto)]

ghost use Rattle.std.specs.Prelude.{◌≡◌};
ghost use Rattle.times.specs.Times.{InRange};
ghost use Rattle.samples.specs.Keep.{gain_between, rate_between, limits_between, beside_one, beside_two, kept_of, ends_of, LawfulEnds, LawfulSamples};

use samples::{Ends, Sample, Samples};
use times::{grand, local};

// What grand time gained on local time from a to b, where the limits hold.
pub fn gain_between(a: Sample, b: Sample) -> Option<i64>
    requires in_range { InRange a.grand }
    requires in_range_2 { InRange b.grand }
    ensures { result ≡ gain_between a b }
{
    let rise = grand::risen(a.grand, b.grand)?;
    samples_rate::gained(rise, local::since(b.local, a.local))
}

// The rate of a clock from its oldest kept sample to its newest.
// tried: `map_or`. That there is a gain follows from `LawfulEnds`, and `returns` does not close behind the closure.
pub fn rate_between(oldest: Sample, newest: Sample) -> i64
    requires { LawfulEnds oldest newest }
    ensures { result ≡ rate_between oldest newest }
{
    match gain_between(oldest, newest) {
        Some(d) => samples_rate::rate(d, local::since(newest.local, oldest.local)),
        None => 0,
    }
}

// Whether the limits hold from one sample to a later one.
#[tactic(auto, unfolding(samples::specs::Rate::gain_of))]
fn limits_between(a: Sample, b: Sample) -> bool
    requires in_range { InRange a.grand }
    requires in_range_2 { InRange b.grand }
    ensures { result ≡ limits_between a b }
{
    gain_between(a, b).is_some()
}

// A new sample beside the newest one, or alone.
fn beside_one(newest: Sample, new: Sample) -> Samples
    requires in_range { InRange newest.grand }
    requires in_range_2 { InRange new.grand }
    ensures { result ≡ beside_one newest new }
{
    if limits_between(newest, new) {
        Samples::Two(newest, new)
    } else {
        Samples::One(new)
    }
}

// A new sample beside the newest two, of which the older one is the oldest that stays; or alone.
fn beside_two(staying: Sample, newest: Sample, new: Sample) -> Samples
    requires in_range { InRange staying.grand }
    requires in_range_2 { InRange newest.grand }
    requires in_range_3 { InRange new.grand }
    ensures { result ≡ beside_two staying newest new }
{
    if limits_between(newest, new) && limits_between(staying, new) {
        Samples::Three(staying, newest, new)
    } else {
        Samples::One(new)
    }
}

// The samples that are kept with a new one, which is of the same clock or not.
#[tactic(auto, unfolding(samples::specs::Keep::kept_of))]
pub fn keep(old: Samples, same: bool, new: Sample) -> Samples
    requires lawful_samples { LawfulSamples old }
    requires in_range { InRange new.grand }
    ensures { result ≡ kept_of old same new }
{
    if !same {
        return Samples::One(new);
    }
    match old {
        Samples::Empty => Samples::One(new),
        Samples::One(newest) => beside_one(newest, new),
        Samples::Two(staying, newest) | Samples::Three(_, staying, newest) => {
            beside_two(staying, newest, new)
        }
    }
}

// The oldest and the newest sample that are kept, unless they are too few to read a line off.
#[tactic(auto, unfolding(samples::specs::Keep::ends_of))]
pub fn ends(samples: Samples) -> Option<Ends>
    ensures { result ≡ ends_of samples }
{
    match samples {
        Samples::Empty | Samples::One(_) => None,
        Samples::Two(oldest, newest) | Samples::Three(oldest, _, newest) => {
            Some(Ends { oldest, newest })
        }
    }
}
