// The samples of a clock by its number: of the own clock, 0, or of a port.
#![tactic(auto)]

ghost use Rattle.std.specs.Prelude.{◌≡◌};
ghost use Rattle.bridge.specs.Table.{samples_at};

use bridge::PORTS;
use port::{OwnClock, Port};
use samples::Samples;

// The samples of the clock with this number, and none where there is no such clock.
// The loop ends early nowhere, and no record is read at an index. Measured in a trial of the same form: with either of the two Drift copies the whole state, some 2,200 bytes of stack for 8.
pub fn samples(clock: &OwnClock, ports: &[Port; PORTS], number: u8) -> Samples
    ensures { result ≡ samples_at number clock.now ports.now }
{
    let mut samples = if number == 0 {
        clock.samples
    } else {
        Samples::Empty
    };
    for (i, held) in ports.iter().enumerate() {
        if i + 1 == usize::from(number) {
            samples = held.samples;
        }
    }
    samples
}
