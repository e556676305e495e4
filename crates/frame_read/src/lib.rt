// Reading: a frame's bytes to its fields, or a refusal.
#![tactic(auto)]

ghost use Rattle.std.specs.Prelude.{◌≡◌};
ghost use Rattle.numbers.specs.Table.{Held};
ghost use Rattle.frame.specs.Frame.{widths, mac_of, precedence_in, fields_of};
ghost use Rattle.frame.specs.Read.{constants_refusal};
ghost use Rattle.frame.specs.Promises.{ReadPromise};

use choice::Precedence;
use frame::layout::ROWS;
use frame::{Fields, Mac, layout, version};
use refusals::Refusal;
use times::{ErrorTime, GrandTime, LocalTime};

// What stands in every frame: the receivers' address, the protocolType, and the function.
pub const STATION_ADDRESS: u64 = 0x0180_C200_000E;

pub const LOCAL_EXPERIMENTAL: u64 = 0x88B5;

pub const TIME_SYNC: u64 = 1;

// Why the constants of a frame are refused, or nothing.
fn constants_refusal(values: &[u64; ROWS]) -> Result<(), Refusal>
    ensures { result ≡ constants_refusal values.now }
{
    if values[layout::DA] != STATION_ADDRESS
        || values[layout::PROTOCOL_TYPE] != LOCAL_EXPERIMENTAL
        || values[layout::FUNCTION] != TIME_SYNC
        || values[layout::ZERO] != 0
    {
        return Err(Refusal::WrongConstant);
    }
    if !version::is_version(values[layout::VERSION]) {
        return Err(Refusal::WrongVersion);
    }
    Ok(())
}

// The casts from here on keep every bit: `Held widths`, which the three functions ask, says that each number fits its row's width, so a TryFrom would answer a refusal that can't come.
// The sender's address.
fn mac(values: &[u64; ROWS]) -> Mac
    requires { Held widths values.now }
    ensures { result ≡ mac_of values.now }
{
    Mac(
        values[layout::SA] as u8,
        values[layout::SA + 1] as u8,
        values[layout::SA + 2] as u8,
        values[layout::SA + 3] as u8,
        values[layout::SA + 4] as u8,
        values[layout::SA + 5] as u8,
    )
}

// The precedence of the clock that the frame is from.
fn precedence(values: &[u64; ROWS]) -> Precedence
    requires { Held widths values.now }
    ensures { result ≡ precedence_in values.now }
{
    Precedence {
        priority1: values[layout::PRIORITY1] as u8,
        source: values[layout::SOURCE] as u8,
        variance: values[layout::VARIANCE] as u16,
        priority2: values[layout::PRIORITY2] as u8,
        clock: values[layout::CLOCK],
    }
}

// All fields of a frame.
fn fields(values: &[u64; ROWS]) -> Fields
    requires { Held widths values.now }
    ensures { result ≡ fields_of values.now }
{
    Fields {
        sa: mac(values),
        precedence: precedence(values),
        hop: values[layout::HOP] as u8,
        count: values[layout::COUNT] as u8,
        grand: GrandTime(values[layout::SECONDS], values[layout::FRACTION]),
        local: LocalTime(values[layout::LOCAL]),
        tx: LocalTime(values[layout::TX]),
        rx: LocalTime(values[layout::RX]),
        error: ErrorTime(values[layout::ERROR] as u32),
        version: values[layout::VERSION] as u8,
    }
}

// The fields of a frame, or why it is refused: its length, its constants or its version.
pub fn read(frame: &[u8]) -> Result<Fields, Refusal>
    ensures { ReadPromise frame.now result }
{
    if frame.len() != layout::FRAME_LENGTH {
        return Err(Refusal::WrongLength);
    }
    let values = layout::parts(frame);
    constants_refusal(&values)?;
    Ok(fields(&values))
}
