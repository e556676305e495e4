// The timeSync frame of 64 bytes: what it says, its layout and its versions.
#![tactic(auto)]

pub mod layout;
pub mod version;

use choice::Precedence;
use times::{ErrorTime, GrandTime, LocalTime};

// The six bytes of a station's address.
// Six numbers and no array: `mac_of`, `mac_from` and the theorems on Fields name each byte.
#[derive(Clone, Copy)]
pub struct Mac(pub u8, pub u8, pub u8, pub u8, pub u8, pub u8);

// What a frame says. The version is a number and no enum: Write, Setup and the reader of frames are given bytes that are no version, and refuse 6 or 1.
#[derive(Clone, Copy)]
pub struct Fields {
    pub sa: Mac,
    pub precedence: Precedence,
    pub hop: u8,
    pub count: u8,
    pub grand: GrandTime,
    pub local: LocalTime,
    pub tx: LocalTime,
    pub rx: LocalTime,
    pub error: ErrorTime,
    pub version: u8,
}

// How a frame that does not lose stands in a comparison: the two parts of `key_of`.
#[derive(Clone, Copy)]
pub struct Standing {
    pub precedence: Precedence,
    pub hop: u8,
}

// Which of two frames is the better: three answers of which none is missing, so no Option (`winner_of`).
#[derive(Clone, Copy)]
pub enum Winner {
    Neither,
    First,
    Second,
}
