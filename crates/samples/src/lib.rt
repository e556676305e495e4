// Samples: a grand time and the local time that it belongs to. What lies between two of them, the rate of one clock on another, and which are kept.
#![tactic(auto)]

use times::{ErrorTime, GrandTime, LocalTime};

// What a clock's frame says: its grand time, and the local time that it belongs to.
#[derive(Clone, Copy)]
pub struct Sample {
    pub grand: GrandTime,
    pub local: LocalTime,
    pub error: ErrorTime,
}

// What is kept of a clock, the oldest sample first.
// That it is lawful is a clause of its users (`LawfulSamples`): an enum can have no invariant, and a struct around it, opened at every match, is no plainer.
#[derive(Clone, Copy)]
pub enum Samples {
    Empty,
    One(Sample),
    Two(Sample, Sample),
    Three(Sample, Sample, Sample),
}

// The oldest and the newest sample that are kept: a line is read off these two.
#[derive(Clone, Copy)]
pub struct Ends {
    pub oldest: Sample,
    pub newest: Sample,
}

// A neighbour's localTime, and the arrival here that it belongs to.
#[derive(Clone, Copy)]
pub struct Pair {
    pub there: LocalTime,
    pub here: LocalTime,
}
