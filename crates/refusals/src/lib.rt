// Why a call is refused: document 01's fourteen refusals, in its order; and the number that an answer has there.
#![tactic(auto)]

ghost use Rattle.std.specs.Prelude.{◌≡◌};
ghost use Rattle.refusals.specs.Refusals.{number_of};
ghost use Rattle.refusals.specs.Answer.{answer_number};

// A refusal, and its number.
#[derive(Clone, Copy, Debug, PartialEq, Eq)]
pub enum Refusal {
    // Setup: not 1 to 8 ports, or a timeout, a backTime or a fixed delay out of its range.
    BadSetup = 1,
    // A port, a mask's bit or a time out of range.
    OutOfRange = 2,
    // The port has no link.
    NoLink = 3,
    // A received frame that is not 64 bytes long, or an output shorter than that.
    WrongLength = 4,
    // A wrong da, protocolType, function or byte 31.
    WrongConstant = 5,
    // A version that there is not.
    WrongVersion = 6,
    // hopCount 255.
    LastHopHeard = 7,
    // The frameCount does not follow on the preceding one, or there is none.
    NotNext = 8,
    // A measured delay whose round trip, turn or half is too long.
    DelayTooLong = 9,
    // No clock is chosen, or the station is not capable of a clock of its own.
    NoClock = 10,
    // The chosen clock has fewer than two samples.
    FewSamples = 11,
    // The departure, or a latch, lies too long after the newer sample, or a latch too long before it.
    TooLate = 12,
    // A grand time, or a second of a scale, would leave its range.
    BeyondRange = 13,
    // A text line that has not the form of one.
    BadLine = 14,
}

// The number that document 01 gives a refusal.
impl From<Refusal> for u8 {
    ghost from_gives = { λ refusal n. n ≡ number_of refusal };

    fn from(refusal: Refusal) -> u8 {
        refusal as u8
    }
}

// The number of an answer that is done.
pub const DONE: u8 = 0;

// The number of an answer that carries nothing where it is done.
pub fn number(answer: Result<(), Refusal>) -> u8
    ensures { result ≡ answer_number answer }
{
    match answer {
        Ok(()) => DONE,
        Err(refusal) => u8::from(refusal),
    }
}
