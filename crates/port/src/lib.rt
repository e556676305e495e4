// One port's record and the own clock's, what a station is set to, and what an event is answered with.
#![tactic(auto)]

pub mod record;

use choice::Announcement;
use delay::DelaySetting;
use frame::Mac;
use refusals::Refusal;
use samples::{Pair, Samples};
use times::LocalTime;

// The frameCount and the arrival of the preceding frame, the next p.
// An enum of its own: an `Option` of a struct takes 8 bytes more of every record, 72 of every state, whose size a caller reckons with.
#[derive(Clone, Copy)]
pub enum Preceding {
    Never,
    Was { count: u8, arrival: LocalTime },
}

// All that is stored of a port; the count is its next frameCount.
#[derive(Clone, Copy)]
pub struct Port {
    pub preceding: Preceding,
    pub announcement: Option<Announcement>,
    pub samples: Samples,
    pub pair: Option<Pair>,
    pub echo: Option<Pair>,
    pub count: u8,
}

// All that is stored of the station's own clock.
#[derive(Clone, Copy)]
pub struct OwnClock {
    pub preceding: Preceding,
    pub samples: Samples,
}

// A port's part of the setup.
#[derive(Clone, Copy)]
pub struct Setting {
    pub delay: DelaySetting,
}

// What a station is: a bridge that passes the chosen clock on, or a listener, whose frames are for the neighbour's measuring of the cable alone.
#[derive(Clone, Copy)]
pub enum Profile {
    Full,
    Listener,
}

// What decides what a station puts into its frames: its profile, its address, and the backTime by which a full bridge reads grand time.
#[derive(Clone, Copy)]
pub struct Sender {
    pub profile: Profile,
    pub mac: Mac,
    pub back: u64,
}

// What a frame, a send or a reading of the own clock is answered with, and the record after it.
// Not one with `bridge::Done<A>`: this is generic in the record, that in what an answer carries, and `Done` is named in promises.
#[derive(Clone, Copy)]
pub struct Outcome<R> {
    pub answer: Result<(), Refusal>,
    pub after: R,
}
