// Ranks: what is compared of a candidate, as two numbers.
#![tactic(auto)]

ghost use Rattle.std.specs.Prelude.{◌≡◌, ◌<◌, ltb};
ghost use Rattle.choice.specs.Choose.{candidate_of, own_candidate};
ghost use Rattle.choice.specs.Rank.{lower_end, Ranks, Ranked, worth_of, same_rank_of, precedence_at, candidate_at};

use choice::{Announcement, Candidate, Precedence, Rank};

// The clock's identity is split: its upper 24 bits stand in the upper number below the other 40 bits of precedence, its lower 40
// in the lower number above hop and port.
const UPPER_CLOCK: u64 = 0x100_0000;

const LOWER_CLOCK: u64 = 0x100_0000_0000;

// The weights in the lower number of the clock's part and of the hop.
const CLOCK_WEIGHT: u64 = 0x1_0000;

const HOP_WEIGHT: u64 = 0x100;

// The weights in the upper number of priority1, timeSource and variance.
const PRIORITY1_WEIGHT: u64 = 0x100_0000_0000_0000;

const SOURCE_WEIGHT: u64 = 0x1_0000_0000_0000;

const VARIANCE_WEIGHT: u64 = 0x1_0000_0000;

// How many values a byte has, and two bytes.
const BYTE_VALUES: u64 = 0x100;

const VARIANCE_VALUES: u64 = 0x1_0000;

// Both numbers of the rank that stands for no candidate.
const LAST: u64 = 0xFFFF_FFFF_FFFF_FFFF;

// The rank that stands for no candidate.
pub const NO_RANK: Rank = Rank(LAST, LAST);

// The rank of a clock.
#[tactic(auto, using(choice::proofs::RankLaws::clock_numbers, choice::proofs::RankLaws::upper_fits))]
fn clock(c: Candidate) -> Rank
    ensures { Ranks result (Some c) }
{
    let p = c.precedence;
    Rank(
        choice_order::high(p) * UPPER_CLOCK + p.clock / LOWER_CLOCK,
        p.clock % LOWER_CLOCK * CLOCK_WEIGHT + u64::from(c.hop) * HOP_WEIGHT + u64::from(c.number),
    )
}

// The rank of the own clock, on a station that is capable.
#[tactic(auto, unfolding(choice::specs::Choose::own_candidate), using(choice::proofs::RankLaws::nothing_rank))]
pub fn own(capable: bool, precedence: Precedence) -> Rank
    ensures { Ranks result (own_candidate capable precedence) }
{
    if capable {
        clock(Candidate {
            precedence,
            hop: 0,
            number: 0,
        })
    } else {
        NO_RANK
    }
}

// The rank of the clock that is announced at the port with this number.
#[tactic(auto, unfolding(choice::specs::Choose::candidate_of), using(choice::proofs::RankLaws::nothing_rank))]
pub fn announced(announcement: Option<Announcement>, number: u8) -> Rank
    ensures { Ranks result (candidate_of number announcement) }
{
    announcement.map_or(NO_RANK, |heard| {
        clock(Candidate {
            precedence: heard.precedence,
            hop: heard.hop,
            number,
        })
    })
}

// Whether the first rank is less. This and `same` are one comparison each: their clauses tie the derived orders to `worth_of` and `same_rank_of`, which callers cite.
pub fn precedes(a: Rank, b: Rank) -> bool
    ensures { result ≡ ltb (worth_of a) (worth_of b) }
{
    a < b
}

// Whether two ranks are the same.
pub fn same(a: Rank, b: Rank) -> bool
    ensures { result ≡ same_rank_of a b }
{
    a == b
}

// The precedence in a rank. The casts here and in `candidate` keep every bit: each is after a % by the values that its type has, or of an upper number, whose quotient is a byte; a TryFrom would answer a refusal that can't come.
#[tactic(auto, unfolding(choice::specs::Rank::precedence_at))]
fn precedence(rank: Rank) -> Precedence
    requires { rank.1 < lower_end }
    ensures { result ≡ precedence_at rank }
{
    Precedence {
        priority1: (rank.0 / PRIORITY1_WEIGHT) as u8,
        source: (rank.0 / SOURCE_WEIGHT % BYTE_VALUES) as u8,
        variance: (rank.0 / VARIANCE_WEIGHT % VARIANCE_VALUES) as u16,
        priority2: (rank.0 / UPPER_CLOCK % BYTE_VALUES) as u8,
        clock: rank.0 % UPPER_CLOCK * LOWER_CLOCK + rank.1 / CLOCK_WEIGHT,
    }
}

// The candidate with this rank.
#[tactic(auto, unfolding(choice::specs::Rank::candidate_at), using(choice::proofs::RankLaws::lower_within))]
pub fn candidate(rank: Rank) -> Option<Candidate>
    requires { Ranked rank }
    ensures { result ≡ candidate_at rank }
{
    if rank.1 == LAST {
        return None;
    }
    Some(Candidate {
        precedence: precedence(rank),
        hop: (rank.1 / HOP_WEIGHT % BYTE_VALUES) as u8,
        number: (rank.1 % BYTE_VALUES) as u8,
    })
}
