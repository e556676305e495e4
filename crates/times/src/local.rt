// Local times on their circle of 2^48 units, and the count of frames on its circle of 256.
ghost use Rattle.std.specs.Prelude.{◌≡◌, ◌%◌, ◌^◌, ◌<◌};
ghost use Rattle.times.specs.Times.{around_of, since_of, earlier_by, is_on_circle, next_count};

use crate::LocalTime;

// The units of local time's circle.
pub const CIRCLE: u64 = 0x1_0000_0000_0000;

// How many frameCounts there are, and the last of them: it lies one before the first.
const COUNTS: u64 = 256;

const LAST_COUNT: u64 = 255;

// Whether a local time is one of its circle's.
pub fn is_on_circle(t: LocalTime) -> bool
    ensures { result ≡ is_on_circle t }
{
    t.0 < CIRCLE
}

// a - b, the way round a circle from b to a: the machine's circle of 2^64 is a multiple of it.
pub fn around(a: u64, b: u64, circle: u64) -> u64
    requires { (0 < circle) × (2 ^ 64 % circle ≡ 0) }
    ensures { result ≡ around_of a b circle }
{
    a.wrapping_sub(b) % circle
}

// a - b, the way round the circle from b to a.
pub fn since(a: LocalTime, b: LocalTime) -> u64
    ensures { result ≡ since_of a b }
{
    around(a.0, b.0, CIRCLE)
}

// The local time that lies n before t.
pub fn earlier_by(t: LocalTime, n: u64) -> LocalTime
    ensures { result ≡ earlier_by t n }
{
    LocalTime(since(t, LocalTime(n)))
}

// The frameCount that follows.
// No `wrapping_add`: document 01 names helpers over a wrapping subtract for all that goes round. `as` takes off no bit, since `around` is below 256.
pub fn next_count(count: u8) -> u8
    ensures { result ≡ next_count count }
{
    around(u64::from(count), LAST_COUNT, COUNTS) as u8
}
