// Precedence as one number of 104 bits, and the key of a clock's frame: precedence, then hop.
#![tactic(auto)]

ghost use Rattle.std.specs.Prelude.{◌≡◌, ltb, eqb};
ghost use Rattle.choice.specs.Precedence.{high_of, precedence_of, key_of};

use choice::Precedence;

// `precedes`, `equals` and `key_precedes` are one comparison each: their clauses tie the derived orders to `precedence_of` and `key_of`, which callers cite.

// The weights of the parts above the clock's identity.
const SOURCE_WEIGHT: u64 = 0x100_0000;

const PRIORITY1_WEIGHT: u64 = 0x1_0000_0000;

const VARIANCE_WEIGHT: u64 = 0x100;

// The 40 bits above the clock's identity.
pub fn high(p: Precedence) -> u64
    ensures { result ≡ high_of p }
{
    u64::from(p.priority1) * PRIORITY1_WEIGHT
        + u64::from(p.source) * SOURCE_WEIGHT
        + u64::from(p.variance) * VARIANCE_WEIGHT
        + u64::from(p.priority2)
}

// Whether p is less than q.
pub fn precedes(p: Precedence, q: Precedence) -> bool
    ensures { result ≡ ltb (precedence_of p) (precedence_of q) }
{
    p < q
}

// Whether p equals q.
pub fn equals(p: Precedence, q: Precedence) -> bool
    ensures { result ≡ eqb (precedence_of p) (precedence_of q) }
{
    p == q
}

// Whether the key of p at hop h is less than that of q at hop k.
pub fn key_precedes(p: Precedence, h: u8, q: Precedence, k: u8) -> bool
    ensures { result ≡ ltb (key_of p h) (key_of q k) }
{
    (p, h) < (q, k)
}
