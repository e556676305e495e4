// Age: announcements that are too old go.
#![tactic(auto)]

ghost use Rattle.std.specs.Prelude.{◌≡◌};
ghost use Rattle.bridge.specs.State.{Lawful};
ghost use Rattle.bridge.specs.Age.{age_of};
ghost use Rattle.bridge.specs.Promises.{DonePromise};

use bridge::{Bridge, Done, PORTS};
use port::record;
use refusals::Refusal;
use times::LocalTime;

// Age in a state that it is lent: where no announcement is too old, no record is stored.
// The loop goes by the index, tried: over `iter_mut` the records are lent out of the state, and its invariant, `Stored`, speaks of the whole state.
// The cast is of at most 8, for which `try_from` with its error is no plainer.
fn aged(b: &mut Bridge, at: u64) -> Result<(), Refusal>
    requires { Lawful b.old }
    ensures { record { next = b.new; answer = result } ≡ age_of b.old at }
{
    if bridge_arguments::off_circle(at) {
        return Err(Refusal::OutOfRange);
    }
    let timeout = b.setup.timeout;
    if b.ports.iter().any(|held| record::too_old(held.announcement, LocalTime(at), timeout)) {
        for i in 0..PORTS {
            let held = &mut b.ports[i];
            record::age(held, LocalTime(at), timeout);
            choice_ranking::update(&mut b.ranking, held.announcement, (i + 1) as u8);
        }
    }
    Ok(())
}

// Age: announcements as old as the timeout go, with samples, echo and their place in the ranking.
pub fn age(b: Bridge, at: u64) -> Done<()>
    requires { Lawful b }
    ensures { DonePromise (age_of b at) result }
{
    let mut next = b;
    let answer = aged(&mut next, at);
    Done { next, answer }
}
