// Signed numbers. The signed operators of the language stand in this file and nowhere above it.
// `abs`, `is_negative`, `from_unsigned`, `add`, `sub` and `mul` each wrap one operation: their contracts say once, over whole numbers, that no bit is lost.
#![tactic(auto)]

ghost use Rattle.std.specs.Prelude.{◌≡◌, ◌+◌, ◌*◌, ◌/◌, ◌<◌, ◌^◌, pos, nat_abs, ◌+ℤ◌, ◌-ℤ◌, ◌*ℤ◌};
ghost use Rattle.std.specs.Int.Signed.{lt_z};
ghost use Rattle.numbers.specs.Whole.{floor_div, nearest_div, at_least_zero};

// The floor of z / m, also where z is below zero.
// No `div_euclid`: that takes an i64, and the clause asks only that m is above 0, so it may have all 64 bits.
pub fn floor_div(z: i64, m: u64) -> i64
    requires { 0 < m }
    ensures { result ≡ floor_div z m }
{
    if z < 0 {
        -1 - ((-1 - z).cast_unsigned() / m).cast_signed()
    } else {
        (z.cast_unsigned() / m).cast_signed()
    }
}

// The nearest whole number to z / m, a half going up. Half of m is added before the division, since twice z may not fit.
pub fn nearest_div(z: i64, m: u64) -> i64
    requires m_nonzero { 0 < m }
    requires m_bound { nat_abs z + m / 2 < 2 ^ 63 }
    ensures { result ≡ nearest_div z m }
{
    floor_div(add(z, from_unsigned(m / 2)), m)
}

// The size of z, whatever its sign.
pub fn abs(z: i64) -> u64
    ensures { result ≡ nat_abs z }
{
    z.unsigned_abs()
}

// Whether z is below zero.
pub fn is_negative(z: i64) -> bool
    ensures { result ≡ lt_z z (pos 0) }
{
    z.is_negative()
}

// The greater of 0 and z.
pub fn at_least_zero(z: i64) -> u64
    ensures { result ≡ at_least_zero z }
{
    u64::try_from(z).unwrap_or(0)
}

// A number without a sign as one with a sign.
pub fn from_unsigned(x: u64) -> i64
    requires { x < 2 ^ 63 }
    ensures { result ≡ pos x }
{
    x.cast_signed()
}

// a - b with its sign, for two numbers that have none.
pub fn difference(a: u64, b: u64) -> i64
    requires { (a < 2 ^ 63) × (b < 2 ^ 63) }
    ensures { result ≡ pos a -ℤ pos b }
{
    a.cast_signed() - b.cast_signed()
}

// a + b.
pub fn add(a: i64, b: i64) -> i64
    requires { nat_abs a + nat_abs b < 2 ^ 63 }
    ensures { result ≡ a +ℤ b }
{
    a + b
}

// a - b.
pub fn sub(a: i64, b: i64) -> i64
    requires { nat_abs a + nat_abs b < 2 ^ 63 }
    ensures { result ≡ a -ℤ b }
{
    a - b
}

// a × b.
pub fn mul(a: i64, b: i64) -> i64
    requires { nat_abs a * nat_abs b < 2 ^ 63 }
    ensures { result ≡ a *ℤ b }
{
    a * b
}
