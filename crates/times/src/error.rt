// ErrorTimes as signed numbers of units, and back.
ghost use Rattle.std.specs.Prelude.{◌≡◌};
ghost use Rattle.times.specs.Times.{error_of, error_time_of};

use crate::ErrorTime;

// The signed number that the 32 bits stand for.
pub fn signed(e: ErrorTime) -> i64
    ensures { result ≡ error_of e }
{
    i64::from(e.0.cast_signed())
}

// The errorTime of a signed number, where it has 32 bits.
#[tactic(auto, unfolding(crate::specs::Times::error_time_of))]
pub fn of_signed(z: i64) -> Option<ErrorTime>
    ensures { result ≡ error_time_of z }
{
    let within = i32::try_from(z).ok()?;
    Some(ErrorTime(within.cast_unsigned()))
}
