// Receive: a frame that arrived at a port.
#![tactic(auto)]

ghost use Rattle.std.specs.Prelude.{◌≡◌, ◌<◌, get_or};
ghost use Rattle.bridge.specs.State.{Lawful};
ghost use Rattle.bridge.specs.Receive.{receive_of};
ghost use Rattle.bridge.specs.Promises.{DonePromise};

use bridge::{Bridge, Done};
use refusals::Refusal;
use times::LocalTime;

// Receive in a state that it is lent. What the port announces takes its place in the ranking before its record is stored.
#[tactic(auto, unfolding(bridge::specs::Receive::receive_of))]
fn received(b: &mut Bridge, port: u8, frame: &[u8], arrival: u64) -> Result<(), Refusal>
    requires { Lawful b.old }
    ensures { record { next = b.new; answer = result } ≡ receive_of b.old port frame.now arrival }
{
    bridge_arguments::port_refusal(b.setup.n, b.links, port, arrival)?;
    let fields = frame_read::read(frame)?;
    let choice = choice_ranking::candidate_at(&b.ranking, choice_ranking::CHOSEN);
    let hop = choice_candidates::chosen_hop(choice);
    let i = usize::from(port - 1);
    let received = port_receive::receive(
        b.ports[i],
        b.setup.settings[i],
        hop,
        fields,
        LocalTime(arrival),
    );
    if received.answer.is_ok() {
        choice_ranking::update(&mut b.ranking, received.after.announcement, port);
    }
    b.ports[i] = received.after;
    received.answer
}

// Receive: a frame that arrived at a port.
pub fn receive(b: Bridge, port: u8, frame: &[u8], arrival: u64) -> Done<()>
    requires { Lawful b }
    ensures { DonePromise (receive_of b port frame.now arrival) result }
{
    let mut next = b;
    let answer = received(&mut next, port, frame, arrival);
    Done { next, answer }
}
