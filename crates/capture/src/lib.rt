// The lines of a capture: a port, an arrival and a frame each; printed are the bridge's answer and the clock that is chosen then.
#![tactic(auto)]

ghost use Rattle.std.specs.Prelude.{◌≡◌, ◌≤◌, length};
ghost use Rattle.refusals.specs.Answer.{answer_number};
ghost use Rattle.bridge.specs.State.{Lawful};
ghost use Rattle.columns.specs.Columns.{longest_answer, Prints};
ghost use Rattle.answer.specs.Answer.{Says};
ghost use Rattle.capture.specs.Capture.{start_of, listed_text, listed_of};

use answer::Answered;
use bridge::Bridge;
use choice::Candidate;
use hexadecimal::digits;
use refusals::Refusal;

// The listing's bridge: two ports, both linked, and a backTime of 10 ms, which is not the default.
const PORTS: u8 = 2;

const BOTH_LINKED: u8 = 3;

const BACK: u64 = 10_995_116_278;

// The digits of a line.
const LINE_DIGITS: usize = 142;

// The bytes that they make.
const LINE_BYTES: usize = 71;

// Where the parts of a line's bytes start, and how many the arrival has.
const PORT_PLACE: usize = 0;

const ARRIVAL_PLACE: usize = 1;

const ARRIVAL_BYTES: usize = 6;

const FRAME_PLACE: usize = 7;

// The bridge before the first line.
pub fn start() -> Bridge
    ensures value { result ≡ start_of }
    ensures lawful { Lawful result }
{
    let given = bridge_setup::plain_setup(PORTS, bridge::default_timeout(), BACK);
    let down = bridge_setup::setup(given).next;
    bridge_links::links(down, BOTH_LINKED).next
}

// Prints an answer with the chosen clock.
fn listed(choice: Option<Candidate>, answer: Result<(), Refusal>, out: &mut [u8]) -> usize
    requires { longest_answer ≤ length out.old }
    ensures { Prints (listed_text (answer_number answer) choice) result out.old out.new }
{
    let port = choice_candidates::shown_port(choice);
    let hop = choice_candidates::shown_hop(choice);
    columns::three(out, refusals::number(answer), port, hop)
}

// The state after a line, and what is printed for it in out.
pub fn answer_line(b: Bridge, text: &[u8], out: &mut [u8]) -> Answered
    requires lawful { Lawful b }
    requires longest_answer_in_bounds { longest_answer ≤ length out.old }
    ensures { Says (listed_of b text.now) result out.old out.new }
{
    if !digits::exactly(text, LINE_DIGITS) {
        return Answered {
            next: b,
            len: listed(bridge_chosen::chosen(b), Err(Refusal::BadLine), out),
        };
    }
    let mut line = [0u8; LINE_BYTES];
    digits::bytes(text, &mut line);
    let arrival = numbers_bytes::number_at(&line, ARRIVAL_PLACE, ARRIVAL_BYTES);
    let done = bridge_receive::receive(b, line[PORT_PLACE], &line[FRAME_PLACE..], arrival);
    Answered {
        next: done.next,
        len: listed(bridge_chosen::chosen(done.next), done.answer, out),
    }
}
