// How good a clock is, and the choice between clocks.
#![tactic(auto)]

use times::LocalTime;

// How good a clock is, the weightiest part first; less is better.
#[derive(Clone, Copy, PartialEq, Eq, PartialOrd, Ord)]
pub struct Precedence {
    pub priority1: u8,
    pub source: u8,
    pub variance: u16,
    pub priority2: u8,
    pub clock: u64,
}

// A clock that was heard at a port: its precedence, the held hop, and when it was heard.
#[derive(Clone, Copy)]
pub struct Announcement {
    pub precedence: Precedence,
    pub hop: u8,
    pub heard_at: LocalTime,
}

// A clock to be chosen: its precedence, the held hop, and its number, that of its port or 0 for the own clock.
// A number and no enum: document 01 gives the own clock port 0, which the definitions (`number_of`) order and answer as a number, and which Drift takes too.
#[derive(Clone, Copy)]
pub struct Candidate {
    pub precedence: Precedence,
    pub hop: u8,
    pub number: u8,
}

// A candidate's rank as two numbers, of which the first weighs more; both are the last there is where there is no candidate.
// No Option: its derived order has None before every Some, and no candidate comes behind all (`in_numbers`, `candidate_at`).
#[derive(Clone, Copy, PartialEq, Eq, PartialOrd, Ord)]
pub struct Rank(pub u64, pub u64);
