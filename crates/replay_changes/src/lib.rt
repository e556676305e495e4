// The lines whose call changes the state. Above each stands the line; its fields are counted from 0, the first after the letter.
#![tactic(auto)]

ghost use Rattle.std.specs.Prelude.{◌≡◌, ◌≤◌, length, take};
ghost use Rattle.forms.specs.Field.{most_length};
ghost use Rattle.forms.specs.Form.{buffer_bytes, number_in};
ghost use Rattle.columns.specs.Columns.{longest_answer, Prints};
ghost use Rattle.bridge.specs.State.{Lawful};
ghost use Rattle.bridge.specs.Setup.{setup_of};
ghost use Rattle.bridge.specs.Links.{links_of};
ghost use Rattle.bridge.specs.Own.{own_clock_of};
ghost use Rattle.bridge.specs.Receive.{receive_of};
ghost use Rattle.bridge.specs.Age.{age_of};
ghost use Rattle.answer.specs.Answer.{done_says, Says};
ghost use Rattle.forms.specs.Value.{byte_in, size_in};
ghost use Rattle.replay_frames.specs.Frames.{untouched};
ghost use Rattle.replay_setup.specs.Argument.{setup_in};
ghost use Rattle.replay_calls.specs.Answer.{link_text, linked_says, send_says};

use answer::Answered;
use bridge::Bridge;
use forms::{Form, value};
use refusals::Refusal;

// `S n mac prec capable timeout back d1 .. d8`, `P` with the same fields, or `V listener n mac prec capable timeout back d1 .. d8 versions`.
pub fn setup(letter: u8, form: Form, out: &mut [u8]) -> Answered
    requires { longest_answer ≤ length out.old }
    ensures { Says (done_says (setup_of (setup_in letter form))) result out.old out.new }
{
    answer::done(bridge_setup::setup(replay_setup::given(letter, form)), out)
}

// Prints what Links answers, a refusal also, by a definition of its own (`link_text`).
fn link_count(answer: Result<u8, Refusal>, out: &mut [u8]) -> usize
    requires { longest_answer ≤ length out.old }
    ensures { Prints (link_text answer) result out.old out.new }
{
    match answer {
        Ok(n) => columns::two(out, refusals::DONE, n),
        Err(refusal) => columns::one(out, u8::from(refusal)),
    }
}

// `L mask`.
pub fn links(b: Bridge, form: Form, out: &mut [u8]) -> Answered
    requires lawful { Lawful b }
    requires longest_answer_in_bounds { longest_answer ≤ length out.old }
    ensures { Says (linked_says (links_of b (byte_in form 0))) result out.old out.new }
{
    let linked = bridge_links::links(b, value::byte(form, 0));
    Answered {
        next: linked.next,
        len: link_count(linked.answer, out),
    }
}

// `O count sec frac now`.
pub fn own_clock(b: Bridge, form: Form, out: &mut [u8]) -> Answered
    requires lawful { Lawful b }
    requires longest_answer_in_bounds { longest_answer ≤ length out.old }
    ensures { Says (done_says (own_clock_of b (byte_in form 0) (number_in form 1) (number_in form 2) (number_in form 3))) result out.old out.new }
{
    let count = value::byte(form, 0);
    answer::done(
        bridge_own_clock::own_clock(b, count, form.numbers[1], form.numbers[2], form.numbers[3]),
        out,
    )
}

// `R port arrival frame`.
// `bytes_len` says what the type says too; it stands, since a public contract keeps its words.
pub fn receive(b: Bridge, form: Form, out: &mut [u8]) -> Answered
    requires lawful { Lawful b }
    requires bytes_len { length form.bytes ≡ buffer_bytes }
    requires longest_answer_in_bounds { longest_answer ≤ length out.old }
    ensures { Says (done_says (receive_of b (byte_in form 0) (take (size_in form 2) form.bytes) (number_in form 1))) result out.old out.new }
{
    let port = value::byte(form, 0);
    let n = value::size(form, 2);
    answer::done(
        bridge_receive::receive(b, port, &form.bytes[..n], form.numbers[1]),
        out,
    )
}

// `A now`.
pub fn age(b: Bridge, form: Form, out: &mut [u8]) -> Answered
    requires lawful { Lawful b }
    requires longest_answer_in_bounds { longest_answer ≤ length out.old }
    ensures { Says (done_says (age_of b (number_in form 0))) result out.old out.new }
{
    answer::done(bridge_age::age(b, form.numbers[0]), out)
}

// Send into an output of at most 128 bytes.
#[tactic(auto, unfolding(replay_calls::specs::Answer::send_says))]
fn sent(b: Bridge, port: u8, t: u64, frame: &mut [u8], out: &mut [u8]) -> Answered
    requires lawful { Lawful b }
    requires frame_len_bound { length frame.old ≤ most_length }
    requires longest_answer_in_bounds { longest_answer ≤ length out.old }
    ensures { Says (send_says b port t frame.old) result out.old out.new }
{
    let done = bridge_send::send(b, port, t, frame);
    Answered {
        next: done.next,
        len: columns::with_bytes(out, refusals::number(done.answer), frame),
    }
}

// `T port t length`.
pub fn send(b: Bridge, form: Form, out: &mut [u8]) -> Answered
    requires lawful { Lawful b }
    requires longest_answer_in_bounds { longest_answer ≤ length out.old }
    ensures { Says (send_says b (byte_in form 0) (number_in form 1) (untouched (size_in form 2))) result out.old out.new }
{
    let port = value::byte(form, 0);
    let n = value::size(form, 2);
    let mut frame = [replay_frames::UNTOUCHED; replay_frames::MOST_LENGTH];
    sent(b, port, form.numbers[1], &mut frame[..n], out)
}
