// The frame that a port sends: a full bridge's for the chosen clock, or a listener's.
#![tactic(auto)]

ghost use Rattle.std.specs.Prelude.{◌≡◌, ◌<◌, ◌≤◌, length};
ghost use Rattle.samples.specs.Keep.{LawfulSamples};
ghost use Rattle.timeline.specs.Sent.{longest_elapsed};
ghost use Rattle.frame.specs.Frame.{frame_length};
ghost use Rattle.choice.specs.Precedence.{worst_precedence};
ghost use Rattle.port.specs.Send.{echo_tx, echo_rx, frame_of, stretch_of, clock_sending, listener_frame_of, sending_of, sending_done, sending_bytes};

use choice::{Candidate, Precedence};
use frame::{Fields, version};
use port::{Outcome, Port, Profile, Sender};
use refusals::Refusal;
use samples::{Pair, Samples};
use timeline::{Sent, departure};
use times::{ErrorTime, GrandTime, LocalTime, local};

// The hopCount of a listener's frames.
const LISTENER_HOP: u8 = 254;

// The neighbour's time in an echo, 0 where there is none.
fn echo_tx(echo: Option<Pair>) -> LocalTime
    ensures { result ≡ echo_tx echo }
{
    echo.map_or(LocalTime(0), |pair| pair.there)
}

// The arrival here in an echo, 0 where there is none.
fn echo_rx(echo: Option<Pair>) -> LocalTime
    ensures { result ≡ echo_rx echo }
{
    echo.map_or(LocalTime(0), |pair| pair.here)
}

// The sender, version, time and port go through these functions one by one, and with them what is asked of backTime: `sending_of` and the theorems on Send take these parts, and the version is that of one port.
// The fields of every frame, whatever it says of a clock.
fn fields(
    sender: Sender,
    version: u8,
    precedence: Precedence,
    hop: u8,
    t: LocalTime,
    times: Sent,
    port: Port,
) -> Fields
    ensures { result ≡ frame_of sender version precedence hop t times.grand times.error port }
{
    Fields {
        sa: sender.mac,
        precedence,
        hop,
        count: port.count,
        grand: times.grand,
        local: t,
        tx: echo_tx(port.echo),
        rx: echo_rx(port.echo),
        error: times.error,
        version,
    }
}

// The stretch whose rest errorTime takes in: backTime in version 2, and none in version 1.
fn stretch(version: u8, back: u64) -> u64
    ensures { result ≡ stretch_of version back }
{
    if version == version::SECOND_VERSION {
        back
    } else {
        0
    }
}

// A full bridge's frame at t, read off the chosen clock's samples, or 10 to 13.
fn for_clock(
    choice: Option<Candidate>,
    samples: Samples,
    sender: Sender,
    version: u8,
    t: LocalTime,
    port: Port,
) -> Result<Fields, Refusal>
    requires lawful_samples { LawfulSamples samples }
    requires back_lt_longest_elapsed { sender.back < longest_elapsed }
    ensures { result ≡ clock_sending choice samples sender version t port }
{
    let clock = choice.ok_or(Refusal::NoClock)?;
    let stretch = stretch(version, sender.back);
    let times = departure::sent(samples, t, sender.back, stretch)?;
    Ok(fields(sender, version, clock.precedence, clock.hop, t, times, port))
}

// The worst precedence: thirteen bytes FF.
fn worst_precedence() -> Precedence
    ensures { result ≡ worst_precedence }
{
    Precedence {
        priority1: u8::MAX,
        source: u8::MAX,
        variance: u16::MAX,
        priority2: u8::MAX,
        clock: u64::MAX,
    }
}

// A listener's frame at t.
fn for_neighbour(sender: Sender, version: u8, t: LocalTime, port: Port) -> Fields
    ensures { result ≡ listener_frame_of sender version t port }
{
    let times = Sent {
        grand: GrandTime(0, 0),
        error: ErrorTime(0),
    };
    fields(
        sender,
        version,
        worst_precedence(),
        LISTENER_HOP,
        t,
        times,
        port,
    )
}

// The frame that the port sends at t by the station's profile, or 10 to 13.
#[tactic(auto, unfolding(port::specs::Send::sending_of))]
fn composed(
    choice: Option<Candidate>,
    samples: Samples,
    sender: Sender,
    version: u8,
    t: LocalTime,
    port: Port,
) -> Result<Fields, Refusal>
    requires lawful_samples { LawfulSamples samples }
    requires back_lt_longest_elapsed { sender.back < longest_elapsed }
    ensures { result ≡ sending_of choice samples sender version t port }
{
    match sender.profile {
        Profile::Full => for_clock(choice, samples, sender, version, t, port),
        Profile::Listener => Ok(for_neighbour(sender, version, t, port)),
    }
}

// Sends at t: the frame fills the output, or the answer is 10 to 13; either way the next frameCount is used up.
pub fn send(
    port: Port,
    choice: Option<Candidate>,
    samples: Samples,
    sender: Sender,
    version: u8,
    t: LocalTime,
    out: &mut [u8],
) -> Outcome<Port>
    requires lawful_samples { LawfulSamples samples }
    requires back_lt_longest_elapsed { sender.back < longest_elapsed }
    requires frame_length_in_bounds { frame_length ≤ length out.old }
    ensures value { result ≡ sending_done (sending_of choice samples sender version t port) port }
    ensures out_after { out.new ≡ sending_bytes (sending_of choice samples sender version t port) out.old }
{
    let composed = composed(choice, samples, sender, version, t, port);
    if let Ok(f) = composed {
        frame_write::put(f, out);
    }
    Outcome {
        answer: composed.map(|_| ()),
        after: Port {
            count: local::next_count(port.count),
            ..port
        },
    }
}
