// The own clock: what a reading of it is answered with, and what is stored of it.
#![tactic(auto)]

ghost use Rattle.std.specs.Prelude.{◌≡◌};
ghost use Rattle.times.specs.Times.{InRange};
ghost use Rattle.samples.specs.Keep.{LawfulSamples};
ghost use Rattle.port.specs.Own.{own_reading_of};

use port::{Outcome, OwnClock, Preceding};
use refusals::Refusal;
use samples::Sample;
use times::{ErrorTime, GrandTime, LocalTime, local};

// A reading: the grand time belongs to the time of the preceding one, on whose frameCount it has to follow.
#[tactic(auto, unfolding(port::specs::Own::own_reading_of))]
pub fn own_clock(clock: OwnClock, count: u8, grand: GrandTime, at: LocalTime) -> Outcome<OwnClock>
    requires lawful_samples { LawfulSamples clock.samples }
    requires in_range { InRange grand }
    ensures { result ≡ own_reading_of count grand at clock }
{
    let preceding = Preceding::Was { count, arrival: at };
    match clock.preceding {
        Preceding::Was {
            count: held,
            arrival,
        } if count == local::next_count(held) => {
            let sample = Sample {
                grand,
                local: arrival,
                error: ErrorTime(0),
            };
            Outcome {
                answer: Ok(()),
                after: OwnClock {
                    preceding,
                    samples: samples_kept::keep(clock.samples, true, sample),
                },
            }
        }
        _ => Outcome {
            answer: Err(Refusal::NotNext),
            after: OwnClock { preceding, ..clock },
        },
    }
}
