// Drift: a clock's rate in parts per million.
ghost use Rattle.std.specs.Prelude.{◌≡◌, ◌≤◌, nat_abs};
ghost use Rattle.samples.specs.Rate.{steepest};
ghost use Rattle.samples.specs.Keep.{LawfulSamples};
ghost use Rattle.timeline.specs.Drift.{ppm_of, drift_of};

use crate::Drift;
use samples::{Ends, Samples};

// A million, and the parts in which a rate counts as a float.
const MILLION: i64 = 1000000;

const PARTS: f64 = 34359738368.0;

// `as f64` below: there is no `From<i64>` for f64. The law `ppm_exact` says that nothing is rounded.

// A rate in parts per million, exactly.
pub fn parts_per_million(rate: i64) -> f64
    requires { nat_abs rate ≤ steepest }
    ensures { result ≡ ppm_of rate }
{
    numbers_whole::mul(rate, MILLION) as f64 / PARTS
}

// The drift of a clock with these samples.
pub fn drift(samples: Samples) -> Drift
    requires { LawfulSamples samples }
    ensures { result ≡ drift_of samples }
{
    match samples_kept::ends(samples) {
        Some(Ends { oldest, newest }) => {
            Drift::PartsPerMillion(parts_per_million(samples_kept::rate_between(oldest, newest)))
        }
        None => Drift::NoReading,
    }
}
