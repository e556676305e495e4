// One line of replay to one call, and its answer to one line of text.
// A letter is the line's own byte, and a table of closures is no plainer than the matches here.
#![tactic(auto)]

ghost use Rattle.std.specs.Prelude.{◌≡◌, true, false, ◌≤◌, length};
ghost use Rattle.bridge.specs.State.{Lawful};
ghost use Rattle.bridge.specs.Setup.{no_bridge};
ghost use Rattle.columns.specs.Columns.{longest_answer, Prints};
ghost use Rattle.answer.specs.Answer.{Says};
ghost use Rattle.replay_grammar.specs.Line.{asks_by, asks};
ghost use Rattle.replay_calls.specs.Answer.{asked_text, call_of, answer_of};

use answer::Answered;
use bridge::Bridge;
use forms::Form;
use refusals::Refusal;

// The bridge before the first line: what a refused Setup hands back.
#[tactic(auto, using(bridge::proofs::StateLaws::setup_refused), unfolding(bridge::specs::Fits::setup_fits, bridge::specs::Fits::profile_fits, bridge::specs::Fits::ranges_fit))]
pub fn start() -> Bridge
    ensures value { result ≡ no_bridge }
    ensures lawful { Lawful result }
{
    bridge_setup::setup(bridge_setup::plain_setup(0, 0, 0)).next
}

// A letter whose call leaves the state as it is: the questions to the bridge, and then the plain lines.
#[tactic(auto, unfolding(replay_calls::specs::Answer::asked_text))]
fn asked(b: Bridge, letter: u8, form: Form, out: &mut [u8]) -> usize
    requires lawful { Lawful b }
    requires longest_answer_in_bounds { longest_answer ≤ length out.old }
    ensures { Prints (asked_text letter b form) result out.old out.new }
{
    match letter {
        b'C' => replay_questions::chosen(b, out),
        b'D' => replay_questions::drift(b, form, out),
        b'E' => replay_questions::stamp(b, form, out),
        b'K' => replay_questions::ranked(b, form, out),
        _ => replay_frames::asked(letter, form, out),
    }
}

// What is printed in out for a text that asks.
#[tactic(auto, using(replay_grammar::proofs::LineLaws::form_some, replay_calls::proofs::AnswerLaws::answer_asked, replay_calls::proofs::AnswerLaws::answer_bad))]
pub fn asked_line(b: Bridge, text: &[u8], out: &mut [u8]) -> usize
    requires lawful { Lawful b }
    requires text_value { asks text.now ≡ true }
    requires longest_answer_in_bounds { longest_answer ≤ length out.old }
    ensures { Prints (answer_of b text.now).text result out.old out.new }
{
    let Some(form) = replay_grammar::form(text) else {
        return columns::one(out, u8::from(Refusal::BadLine));
    };
    asked(b, text[0], form, out)
}

// A letter whose call changes the state, with what its fields say; of these letters Setup's, S, P and V, are left to the last arm.
#[tactic(auto, using(replay_calls::proofs::AnswerLaws::call_setup, replay_grammar::proofs::LineLaws::setup_letter), unfolding(replay_calls::specs::Answer::call_of))]
fn call(b: Bridge, letter: u8, form: Form, out: &mut [u8]) -> Answered
    requires lawful { Lawful b }
    requires letter_value { asks_by letter ≡ false }
    requires longest_answer_in_bounds { longest_answer ≤ length out.old }
    ensures { Says (call_of letter b form) result out.old out.new }
{
    match letter {
        b'L' => replay_changes::links(b, form, out),
        b'O' => replay_changes::own_clock(b, form, out),
        b'R' => replay_changes::receive(b, form, out),
        b'A' => replay_changes::age(b, form, out),
        b'T' => replay_changes::send(b, form, out),
        _ => replay_changes::setup(letter, form, out),
    }
}

// The state after a line that does not ask, and what is printed for it in out.
#[tactic(auto, using(replay_grammar::proofs::LineLaws::form_some, replay_grammar::proofs::LineLaws::asks_letter, replay_calls::proofs::AnswerLaws::answer_call, replay_calls::proofs::AnswerLaws::answer_bad))]
pub fn answer_line(b: Bridge, text: &[u8], out: &mut [u8]) -> Answered
    requires lawful { Lawful b }
    requires text_value { asks text.now ≡ false }
    requires longest_answer_in_bounds { longest_answer ≤ length out.old }
    ensures { Says (answer_of b text.now) result out.old out.new }
{
    let Some(form) = replay_grammar::form(text) else {
        return answer::refused(b, out);
    };
    call(b, text[0], form, out)
}
