// Sent grand time, read off the line through the kept samples, and the errorTime that is sent with it.
ghost use Rattle.std.specs.Prelude.{◌≡◌, ◌^◌, ◌<◌, ◌≤◌, nat_abs};
ghost use Rattle.times.specs.Times.{error_time_of};
ghost use Rattle.samples.specs.Rate.{steepest};
ghost use Rattle.samples.specs.Keep.{LawfulSamples};
ghost use Rattle.timeline.specs.Sent.{longest_elapsed, error_by, sent_of};

use crate::Sent;
use refusals::Refusal;
use samples::{Ends, Sample, Samples};
use times::{ErrorTime, LocalTime, error, local};

// A departure lies less than this after the newest sample.
const LONGEST_ELAPSED: u64 = 0x80_0000_0000;

// The newest sample's errorTime, and the rest: what a clock of this rate gains over the stretch.
fn error_after(newest: Sample, rate: i64, stretch: u64) -> Option<ErrorTime>
    requires error_bound { newest.error.0 < 2 ^ 32 }
    requires rate_bound { nat_abs rate ≤ steepest }
    requires stretch_lt_longest_elapsed { stretch < longest_elapsed }
    ensures { result ≡ error_time_of (error_by rate newest stretch) }
{
    if stretch == 0 {
        return Some(newest.error);
    }
    let gain = samples_rate::scaled(rate, numbers_whole::from_unsigned(stretch));
    error::of_signed(numbers_whole::add(error::signed(newest.error), gain))
}

// What a frame that departs at t carries of a clock with these samples.
pub fn sent(samples: Samples, t: LocalTime, back: u64, stretch: u64) -> Result<Sent, Refusal>
    requires lawful_samples { LawfulSamples samples }
    requires back_lt_longest_elapsed { back < longest_elapsed }
    requires stretch_lt_longest_elapsed { stretch < longest_elapsed }
    ensures { result ≡ sent_of samples t back stretch }
{
    let Some(Ends { oldest, newest }) = samples_kept::ends(samples) else {
        return Err(Refusal::FewSamples);
    };
    let elapsed = local::since(t, newest.local);
    if LONGEST_ELAPSED <= elapsed {
        return Err(Refusal::TooLate);
    }
    let rate = samples_kept::rate_between(oldest, newest);
    let reach = numbers_whole::difference(elapsed, back);
    let grand = crate::reading(newest, rate, reach, back).ok_or(Refusal::BeyondRange)?;
    let error = error_after(newest, rate, stretch).ok_or(Refusal::BeyondRange)?;
    Ok(Sent { grand, error })
}
