// Grand times: whether one is in range; and as one number of units, the moment less than a second from one, and the rise from one to another.
ghost use Rattle.std.specs.Prelude.{◌≡◌, ◌+◌, ◌<◌, pos, ◌+ℤ◌, ◌-ℤ◌, unsigned_abs};
ghost use Rattle.times.specs.Times.{second, units, InRange, is_in_range, moment_of, rise_within};

use crate::GrandTime;

// The units of a second, and where the seconds of grand time end.
pub const SECOND: u64 = 0x100_0000_0000;

const SECONDS_END: u64 = 0x100_0000_0000;

// Whether seconds and fraction are in range.
pub fn is_in_range(g: GrandTime) -> bool
    ensures { result ≡ is_in_range g }
{
    g.0 < SECONDS_END && g.1 < SECOND
}

// The moment n after g, unless that reaches the end of grand time.
pub fn later(g: GrandTime, n: u64) -> Option<GrandTime>
    requires in_range { InRange g }
    requires n_lt_second { n < second }
    ensures { result ≡ moment_of (pos (units g + n)) }
{
    let total = g.1 + n;
    let seconds = g.0 + total / SECOND;
    if seconds < SECONDS_END {
        Some(GrandTime(seconds, total % SECOND))
    } else {
        None
    }
}

// The moment n before g, unless that is below zero.
pub fn earlier(g: GrandTime, n: u64) -> Option<GrandTime>
    requires in_range { InRange g }
    requires n_lt_second { n < second }
    ensures { result ≡ moment_of (pos (units g) -ℤ pos n) }
{
    if n <= g.1 {
        return Some(GrandTime(g.0, g.1 - n));
    }
    if g.0 == 0 {
        return None;
    }
    Some(GrandTime(g.0 - 1, g.1 + SECOND - n))
}

// The moment x after g, before it where x is below zero, where grand time has one.
pub fn moved(g: GrandTime, x: i64) -> Option<GrandTime>
    requires in_range { InRange g }
    requires x_bound { unsigned_abs x < second }
    ensures { result ≡ moment_of (pos (units g) +ℤ x) }
{
    let n = numbers_whole::abs(x);
    if numbers_whole::is_negative(x) {
        earlier(g, n)
    } else {
        later(g, n)
    }
}

// The rise from a to b, where it is below a second.
pub fn risen(a: GrandTime, b: GrandTime) -> Option<u64>
    requires in_range { InRange a }
    requires in_range_2 { InRange b }
    ensures { result ≡ rise_within (units a) (units b) }
{
    if a.0 == b.0 && a.1 <= b.1 {
        return Some(b.1 - a.1);
    }
    if a.0 + 1 == b.0 && b.1 < a.1 {
        return Some(SECOND - a.1 + b.1);
    }
    None
}
