// PTP seconds on the scales of GPS, UTC and NTP: table B.1 of the draft, where a scale's second is PTP's + offset, for UTC and NTP less the leap seconds.
#![tactic(auto)]

ghost use Rattle.std.specs.Prelude.{◌≡◌, ◌^◌, ◌<◌, pos, nat_abs, ◌+ℤ◌, ◌-ℤ◌};
ghost use Rattle.refusals.specs.Promises.{AnswerPromise};
ghost use Rattle.ptp.specs.Scale.{scaled_of, gps_of, gps_refusal, gps_given, utc_of, utc_refusal, utc_given, ntp_of, ntp_refusal, ntp_given};

use ptp::{GpsSecond, NtpSecond, PtpSecond, UtcSecond};
use refusals::Refusal;

// Where the seconds of every scale end.
const SECONDS_END: u64 = 0x1_0000_0000_0000;

// The offset of each scale, and the leap seconds of a scale that has none.
const GPS_OFFSET: i64 = -315_964_819;

const UTC_OFFSET: i64 = 0;

const NTP_OFFSET: i64 = 2_208_988_800;

const NO_LEAP: i16 = 0;

// The second of a scale: PTP + offset - leap seconds. The PTP second is looked at first.
#[tactic(auto, using(ptp::proofs::ScaleLaws::scaled_out))]
fn on_scale(second: PtpSecond, offset: i64, leap: i16) -> Result<u64, Refusal>
    requires { nat_abs offset < 2 ^ 32 }
    ensures { result ≡ scaled_of second.0 (pos second.0 +ℤ offset -ℤ leap) }
{
    if SECONDS_END <= second.0 {
        return Err(Refusal::OutOfRange);
    }
    let moved = numbers_whole::add(numbers_whole::from_unsigned(second.0), offset);
    let seconds = numbers_whole::sub(moved, i64::from(leap));
    let n = numbers_whole::abs(seconds);
    if numbers_whole::is_negative(seconds) || SECONDS_END <= n {
        return Err(Refusal::BeyondRange);
    }
    Ok(n)
}

// GPS: a PTP second on the GPS scale.
pub fn gps(second: PtpSecond) -> Result<GpsSecond, Refusal>
    ensures { AnswerPromise (gps_of second) (gps_refusal second) (gps_given second) result }
{
    on_scale(second, GPS_OFFSET, NO_LEAP).map(GpsSecond)
}

// UTC: a PTP second on the UTC scale, by the leap seconds supplied.
pub fn utc(second: PtpSecond, leap: i16) -> Result<UtcSecond, Refusal>
    ensures { AnswerPromise (utc_of second leap) (utc_refusal second leap) (utc_given second leap) result }
{
    on_scale(second, UTC_OFFSET, leap).map(UtcSecond)
}

// NTP: a PTP second on the NTP scale, by the leap seconds supplied.
pub fn ntp(second: PtpSecond, leap: i16) -> Result<NtpSecond, Refusal>
    ensures { AnswerPromise (ntp_of second leap) (ntp_refusal second leap) (ntp_given second leap) result }
{
    on_scale(second, NTP_OFFSET, leap).map(NtpSecond)
}
