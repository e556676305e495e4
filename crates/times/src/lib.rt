// The two kinds of time, which never stand for each other, and the arithmetic on each.
// The unit of every time is U = 2^-40 s.
#![tactic(auto)]

pub mod error;
pub mod grand;
pub mod local;
pub mod parts;

// A reading of a local clock, 0 to 2^48 - 1: it wraps every 256 s.
#[derive(Clone, Copy)]
pub struct LocalTime(pub u64);

// A grand time: whole seconds and a fraction in U, each below 2^40.
// That it is in range is a clause of its users and no invariant of the type: Export, Inward, Write and Own clock are given times out of range, and refuse them.
#[derive(Clone, Copy)]
pub struct GrandTime(pub u64, pub u64);

// An errorTime in U: its 32 bits, in two's complement.
#[derive(Clone, Copy)]
pub struct ErrorTime(pub u32);
