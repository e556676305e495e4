// Export and Import: the PTP time of a grand time, and back.
#![tactic(auto)]

ghost use Rattle.std.specs.Prelude.{◌≡◌, ◌<◌};
ghost use Rattle.refusals.specs.Promises.{AnswerPromise};
ghost use Rattle.times.specs.Times.{second};
ghost use Rattle.ptp.specs.Timestamp.{billion, nanosecond_of, ptp_time_of, export_of, export_refusal, fraction_of, grand_time_of, import_of, import_refusal};

use ptp::{PtpSecond, PtpTime};
use refusals::Refusal;
use times::{GrandTime, grand, parts};

// The nanoseconds of a second.
const BILLION: u64 = 1_000_000_000;

// So many nanoseconds are just so many U: 10^9 and 2^40, each divided by the 2^9 that both have.
const COMMON_NANOSECONDS: u64 = 1_953_125;

const COMMON_UNITS: u64 = 0x8000_0000;

// The nanosecond that a fraction lies in.
#[tactic(auto, using(ptp::proofs::TimestampLaws::nanosecond_is))]
fn nanosecond(fraction: u64) -> u64
    requires { fraction < second }
    ensures { result ≡ nanosecond_of fraction }
{
    parts::part(fraction, COMMON_NANOSECONDS, COMMON_UNITS)
}

// The least fraction that lies in a nanosecond.
#[tactic(auto, using(ptp::proofs::TimestampLaws::fraction_is))]
fn fraction(nanosecond: u64) -> u64
    requires { nanosecond < billion }
    ensures { result ≡ fraction_of nanosecond }
{
    parts::least(nanosecond, COMMON_NANOSECONDS, COMMON_UNITS)
}

// Export: the PTP time of a grand time, rounded down to the nanosecond.
#[tactic(auto, unfolding(ptp::specs::Timestamp::export_of))]
pub fn export(time: GrandTime) -> Result<PtpTime, Refusal>
    ensures { AnswerPromise (export_of time) (export_refusal time) (ptp_time_of time) result }
{
    if !grand::is_in_range(time) {
        return Err(Refusal::OutOfRange);
    }
    Ok(PtpTime(PtpSecond(time.0), nanosecond(time.1)))
}

// Import: the least grand time whose export is that PTP time.
#[tactic(auto, unfolding(ptp::specs::Timestamp::import_of))]
pub fn import(time: PtpTime) -> Result<GrandTime, Refusal>
    ensures { AnswerPromise (import_of time) (import_refusal time) (grand_time_of time) result }
{
    let PtpTime(PtpSecond(seconds), nanoseconds) = time;
    if grand::SECOND <= seconds || BILLION <= nanoseconds {
        return Err(Refusal::OutOfRange);
    }
    Ok(GrandTime(seconds, fraction(nanoseconds)))
}
