// The lines of the stamps program: a latch among the lines of a capture; printed for a latch is its stamp.
#![tactic(auto)]

ghost use Rattle.std.specs.Prelude.{◌≡◌, true, ◌≤◌, length};
ghost use Rattle.bridge.specs.State.{Lawful};
ghost use Rattle.columns.specs.Columns.{longest_answer, Prints};
ghost use Rattle.latch.specs.Latch.{is_latch, latch_text, latched_of};

use bridge::Bridge;
use columns::{CHARACTER, NEWLINE};
use hexadecimal::digits;
use refusals::Refusal;
use times::GrandTime;

// The digits of a latch.
const LATCH_DIGITS: usize = 12;

// How many bytes a grand time's seconds have, and its fraction.
const SECONDS_BYTES: usize = 5;

const FRACTION_BYTES: usize = 5;

// Prints a stamp, or the refusal, by a definition of its own (`latch_text`: no answer stands before the time).
fn stamped(stamp: Result<GrandTime, Refusal>, out: &mut [u8]) -> usize
    requires { longest_answer ≤ length out.old }
    ensures { Prints (latch_text stamp) result out.old out.new }
{
    match stamp {
        Ok(time) => columns::line(
            out,
            &[SECONDS_BYTES, FRACTION_BYTES, CHARACTER],
            &[time.0, time.1, NEWLINE],
        ),
        Err(refusal) => columns::one(out, u8::from(refusal)),
    }
}

// Whether a line leaves the state as it is: whether it is a latch.
pub fn asks(text: &[u8]) -> bool
    ensures { result ≡ is_latch text.now }
{
    digits::exactly(text, LATCH_DIGITS)
}

// What is printed in out for a latch.
pub fn asked_line(b: Bridge, text: &[u8], out: &mut [u8]) -> usize
    requires lawful { Lawful b }
    requires text_value { is_latch text.now ≡ true }
    requires longest_answer_in_bounds { longest_answer ≤ length out.old }
    ensures { Prints (latched_of b text.now).text result out.old out.new }
{
    stamped(recorder_stamp::stamp(b, digits::number(text)), out)
}
