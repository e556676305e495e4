// The recorder's own events: the grand time of a local time that its front end latched when a wave arrived, off a clock's samples.
#![tactic(auto)]

ghost use Rattle.std.specs.Prelude.{◌≡◌};
ghost use Rattle.samples.specs.Keep.{ends_of, LawfulSamples};
ghost use Rattle.recorder.specs.Stamp.{distance_of, stamp_through};

use refusals::Refusal;
use samples::Samples;
use times::{GrandTime, LocalTime, local};

// Half way round the circle of local time.
const HALF_WAY: u64 = 0x8000_0000_0000;

// A latch is stamped at most this far from the newer sample, before or after it.
const LONGEST_REACH: u64 = 0x80_0000_0000;

// What is added to a reading of the line: to a stamp, nothing.
const NOTHING_MORE: u64 = 0;

// How far a latch lies after the newer sample, below zero where it lies before it: the nearer way round the circle.
fn distance(latch: LocalTime, newer: LocalTime) -> i64
    ensures { result ≡ distance_of latch newer }
{
    let after = local::since(latch, newer);
    if after < HALF_WAY {
        return numbers_whole::from_unsigned(after);
    }
    numbers_whole::difference(after, local::CIRCLE)
}

// The stamp of a latch, read off the line through the ends of a clock's samples. A latch that lies too far from the newer sample has Send's refusal for a departure that does.
pub fn through(samples: Samples, latch: LocalTime) -> Result<GrandTime, Refusal>
    requires { LawfulSamples samples }
    ensures { result ≡ stamp_through (ends_of samples) latch }
{
    let ends = samples_kept::ends(samples).ok_or(Refusal::FewSamples)?;
    let away = distance(latch, ends.newest.local);
    if LONGEST_REACH < numbers_whole::abs(away) {
        return Err(Refusal::TooLate);
    }
    let rate = samples_kept::rate_between(ends.oldest, ends.newest);
    timeline::reading(ends.newest, rate, away, NOTHING_MORE).ok_or(Refusal::BeyondRange)
}
