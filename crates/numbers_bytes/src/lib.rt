// Numbers in bytes, most significant byte first, at any width up to 8.
#![tactic(auto)]

ghost use Rattle.std.specs.Prelude.{◌≡◌, ◌+◌, ◌<◌, ◌≤◌, ◌^◌, length};
ghost use Rattle.numbers.specs.Bytes.{onto, number_at, number_bytes, spliced};

// The number whose bytes are s.
pub fn number(s: &[u8]) -> u64
    requires { length s.now ≤ 8 }
    ensures value { result ≡ onto 0 s.now }
    ensures upper_bound { result < 256 ^ length s.now }
{
    let mut v = 0;
    for x in s {
        v = v * 256 + u64::from(*x);
    }
    v
}

// The number whose bytes are the n of s from `at` on.
pub fn number_at(s: &[u8], at: usize, n: usize) -> u64
    requires { (n ≤ 8) × (at + n ≤ length s.now) }
    ensures value { result ≡ number_at s.now at n }
    ensures upper_bound { result < 256 ^ n }
{
    number(&s[at..at + n])
}

// Fills out with the low bytes of v.
// By the index: the invariant speaks of the bytes of `out` from an index on, and a loop over `out.iter_mut().rev()` holds borrows and no index.
// `as` takes off no bit after `% 256`, where a `try_from` would answer a Result that can't fail.
pub fn put(out: &mut [u8], v: u64)
    ensures { out.new ≡ number_bytes (length out.old) v }
{
    let mut rest = v;
    for i in (0..out.len()).rev() {
        out[i] = (rest % 256) as u8;
        rest /= 256;
    }
}

// Stores the n low bytes of v from `at` on.
pub fn put_at(out: &mut [u8], at: usize, n: usize, v: u64)
    requires { at + n ≤ length out.old }
    ensures { out.new ≡ spliced out.old at n v }
{
    put(&mut out[at..at + n], v);
}
