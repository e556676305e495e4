// Steps 1 to 5 on one record: what a frame is answered with, and what is stored of it.
#![tactic(auto)]

ghost use Rattle.std.specs.Prelude.{◌≡◌};
ghost use Rattle.port.specs.Lawful.{LawfulPort, FieldsInRange};
ghost use Rattle.port.specs.Receive.{same_clock, taken_port, taken_by, received_of};

use choice::{Announcement, Precedence};
use frame::Fields;
use port::{Outcome, Port, Preceding, Setting};
use refusals::Refusal;
use samples::{Pair, Sample};
use times::{LocalTime, local};

// Whether an announcement is of the clock with this precedence.
#[tactic(auto, unfolding(port::specs::Receive::same_clock))]
fn same_clock(announcement: Option<Announcement>, precedence: Precedence) -> bool
    ensures { result ≡ same_clock announcement precedence }
{
    announcement.is_some_and(|held| choice_order::equals(held.precedence, precedence))
}

// `LawfulPort` and `FieldsInRange` are asked of each function here and are no invariants of the types: `received_of` and its theorems are of plain records, which a frame from outside may be.
// What is stored of a frame that is taken, with its delay and its held hop: steps 4 and 5.
fn stored(port: Port, f: Fields, hop: u8, p: LocalTime, delay: u64, at: LocalTime) -> Port
    requires lawful_port { LawfulPort port }
    requires fields_in_range { FieldsInRange f }
    ensures { result ≡ taken_port f hop p delay at port }
{
    let same = same_clock(port.announcement, f.precedence);
    let sample = Sample {
        grand: f.grand,
        local: local::earlier_by(p, delay),
        error: f.error,
    };
    let pair = Some(Pair {
        there: f.local,
        here: p,
    });
    Port {
        preceding: Preceding::Was {
            count: f.count,
            arrival: at,
        },
        announcement: Some(Announcement {
            precedence: f.precedence,
            hop,
            heard_at: at,
        }),
        samples: samples_kept::keep(port.samples, same, sample),
        pair,
        echo: pair,
        ..port
    }
}

// The record after a frame that it takes, or 7 to 9.
#[tactic(auto, unfolding(port::specs::Receive::followed_by_of))]
fn taken(
    port: Port,
    setting: Setting,
    chosen: u8,
    f: Fields,
    at: LocalTime,
) -> Result<Port, Refusal>
    requires lawful_port { LawfulPort port }
    requires fields_in_range { FieldsInRange f }
    ensures { result ≡ taken_by setting chosen f at port }
{
    if f.hop == choice_hop::LAST_HOP {
        return Err(Refusal::LastHopHeard);
    }
    let Preceding::Was { count, arrival: p } = port.preceding else {
        return Err(Refusal::NotNext);
    };
    if f.count != local::next_count(count) {
        return Err(Refusal::NotNext);
    }
    let delay = delay::link_delay(setting.delay, port.pair, f.local, p, f.tx, f.rx)?;
    let hop = choice_hop::held_hop(f.hop, chosen);
    Ok(stored(port, f, hop, p, delay, at))
}

// A frame that was read, on a port with this setting, where the chosen clock's held hop is `chosen`; of a refused one the frameCount and the arrival are stored, as
// the next p and not as heard-at.
#[tactic(auto, unfolding(port::specs::Receive::received_of))]
pub fn receive(port: Port, setting: Setting, chosen: u8, f: Fields, at: LocalTime) -> Outcome<Port>
    requires lawful_port { LawfulPort port }
    requires fields_in_range { FieldsInRange f }
    ensures { result ≡ received_of setting chosen f at port }
{
    match taken(port, setting, chosen, f, at) {
        Ok(after) => Outcome {
            answer: Ok(()),
            after,
        },
        Err(refusal) => Outcome {
            answer: Err(refusal),
            after: Port {
                preceding: Preceding::Was {
                    count: f.count,
                    arrival: at,
                },
                ..port
            },
        },
    }
}
