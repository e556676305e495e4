// Send: a port's next frame.
#![tactic(auto)]

ghost use Rattle.std.specs.Prelude.{◌≡◌, length};
ghost use Rattle.bridge.specs.State.{Lawful};
ghost use Rattle.bridge.specs.Send.{send_of, send_bytes};
ghost use Rattle.bridge.specs.Promises.{SendPromise};

use bridge::{Bridge, Done};
use refusals::Refusal;
use times::LocalTime;

// Send in a state that it is lent.
#[tactic(auto, unfolding(bridge::specs::Send::send_of, bridge::specs::Send::send_bytes))]
fn sent(b: &mut Bridge, port: u8, t: u64, out: &mut [u8]) -> Result<(), Refusal>
    requires { Lawful b.old }
    ensures done { record { next = b.new; answer = result } ≡ send_of b.old port t (length out.old) }
    ensures bytes { out.new ≡ send_bytes b.old port t out.old }
{
    bridge_arguments::send_refusal(b.setup.n, b.links, port, t, out.len())?;
    let choice = choice_ranking::candidate_at(&b.ranking, choice_ranking::CHOSEN);
    let samples = bridge_samples::samples(&b.clock, &b.ports, choice_candidates::number(choice));
    let i = usize::from(port - 1);
    let sent = port_send::send(
        b.ports[i],
        choice,
        samples,
        b.setup.sender,
        b.setup.versions[i],
        LocalTime(t),
        out,
    );
    b.ports[i] = sent.after;
    sent.answer
}

// Send: fills the output with the port's next frame, whose preceding one departed at t.
pub fn send(b: Bridge, port: u8, t: u64, out: &mut [u8]) -> Done<()>
    requires { Lawful b }
    ensures { SendPromise b port t out.old result out.new }
{
    let mut next = b;
    let answer = sent(&mut next, port, t, out);
    Done { next, answer }
}
