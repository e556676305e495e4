// The lines whose call asks a bridge and leaves it as it is. Above each stands the line; its fields are counted from 0, the first after the letter.
#![tactic(auto)]

ghost use Rattle.std.specs.Prelude.{◌≤◌, not, length, T};
ghost use Rattle.std.specs.Float.Ieee.{is_nan, to_bits};
ghost use Rattle.std.specs.Float.{binary64};
ghost use Rattle.numbers.specs.Bytes.{number_bytes};
ghost use Rattle.bridge.specs.State.{Lawful};
ghost use Rattle.bridge.specs.Chosen.{chosen_of};
ghost use Rattle.bridge.specs.Ranked.{ranked_of};
ghost use Rattle.bridge.specs.Drift.{drift_at};
ghost use Rattle.recorder.specs.Stamp.{stamp_of};
ghost use Rattle.forms.specs.Form.{number_in};
ghost use Rattle.forms.specs.Value.{byte_in};
ghost use Rattle.columns.specs.Columns.{longest_answer, line_with, Prints};
ghost use Rattle.replay_calls.specs.Answer.{chosen_text, IsNumber, drift_text, stamp_text};

use bridge::Bridge;
use choice::Candidate;
use forms::{Form, value};
use refusals::Refusal;
use timeline::Drift;
use times::GrandTime;

// Prints the port and the held hop of a candidate.
fn shown(candidate: Option<Candidate>, out: &mut [u8]) -> usize
    requires { longest_answer ≤ length out.old }
    ensures { Prints (chosen_text candidate) result out.old out.new }
{
    let port = choice_candidates::shown_port(candidate);
    let hop = choice_candidates::shown_hop(candidate);
    columns::two(out, port, hop)
}

// `C`.
pub fn chosen(b: Bridge, out: &mut [u8]) -> usize
    requires lawful { Lawful b }
    requires longest_answer_in_bounds { longest_answer ≤ length out.old }
    ensures { Prints (chosen_text (chosen_of b)) result out.old out.new }
{
    shown(bridge_chosen::chosen(b), out)
}

// `K place`.
pub fn ranked(b: Bridge, form: Form, out: &mut [u8]) -> usize
    requires lawful { Lawful b }
    requires longest_answer_in_bounds { longest_answer ≤ length out.old }
    ensures { Prints (chosen_text (ranked_of b (byte_in form 0))) result out.old out.new }
{
    shown(bridge_ranked::ranked(b, value::byte(form, 0)), out)
}

// Prints a float's bits after the answer 0.
fn bits(x: f64, out: &mut [u8]) -> usize
    requires t { T (not (is_nan x)) }
    requires longest_answer_in_bounds { longest_answer ≤ length out.old }
    ensures { Prints (line_with 0 (number_bytes 8 (to_bits binary64 x))) result out.old out.new }
{
    let mut b = [0u8; 8];
    numbers_bytes::put(&mut b, x.to_bits());
    columns::with_bytes(out, refusals::DONE, &b)
}

// Prints a drift.
fn rate(drift: Drift, out: &mut [u8]) -> usize
    requires number { IsNumber drift }
    requires longest_answer_in_bounds { longest_answer ≤ length out.old }
    ensures { Prints (drift_text drift) result out.old out.new }
{
    match drift {
        Drift::Refused => columns::one(out, u8::from(Refusal::OutOfRange)),
        Drift::NoReading => columns::one(out, refusals::DONE),
        Drift::PartsPerMillion(x) => bits(x, out),
    }
}

// `D port`.
#[tactic(auto, using(replay_calls::proofs::AnswerLaws::drift_number))]
pub fn drift(b: Bridge, form: Form, out: &mut [u8]) -> usize
    requires lawful { Lawful b }
    requires longest_answer_in_bounds { longest_answer ≤ length out.old }
    ensures { Prints (drift_text (drift_at b (byte_in form 0))) result out.old out.new }
{
    rate(bridge_drift::drift(b, value::byte(form, 0)), out)
}

// Prints a stamp after the answer 0, or the refusal, by a definition of its own (`stamp_text`).
fn stamped(stamp: Result<GrandTime, Refusal>, out: &mut [u8]) -> usize
    requires { longest_answer ≤ length out.old }
    ensures { Prints (stamp_text stamp) result out.old out.new }
{
    match stamp {
        Ok(time) => columns::with_time(out, refusals::DONE, time.0, time.1),
        Err(refusal) => columns::one(out, u8::from(refusal)),
    }
}

// `E latch`.
pub fn stamp(b: Bridge, form: Form, out: &mut [u8]) -> usize
    requires lawful { Lawful b }
    requires longest_answer_in_bounds { longest_answer ≤ length out.old }
    ensures { Prints (stamp_text (stamp_of b (number_in form 0))) result out.old out.new }
{
    stamped(recorder_stamp::stamp(b, form.numbers[0]), out)
}
