// What a line is answered with: the state after it, and the text printed for it.
#![tactic(auto)]

ghost use Rattle.std.specs.Prelude.{◌≤◌, length};
ghost use Rattle.bridge.specs.State.{Lawful};
ghost use Rattle.columns.specs.Columns.{longest_answer};
ghost use Rattle.answer.specs.Answer.{refused_line, done_says, Says};

use bridge::{Bridge, Done};
use refusals::Refusal;

// The state after a line, and the length of what is printed for it: there is no heap, so the text stands in the lent output.
#[derive(Clone, Copy)]
pub struct Answered {
    pub next: Bridge,
    pub len: usize,
}

// A line that has not the form of one.
pub fn refused(b: Bridge, out: &mut [u8]) -> Answered
    requires lawful { Lawful b }
    requires longest_answer_in_bounds { longest_answer ≤ length out.old }
    ensures { Says (refused_line b) result out.old out.new }
{
    Answered {
        next: b,
        len: columns::one(out, u8::from(Refusal::BadLine)),
    }
}

// A call whose answer carries nothing.
pub fn done(d: Done<()>, out: &mut [u8]) -> Answered
    requires lawful { Lawful d.next }
    requires longest_answer_in_bounds { longest_answer ≤ length out.old }
    ensures { Says (done_says d) result out.old out.new }
{
    Answered {
        next: d.next,
        len: columns::one(out, refusals::number(d.answer)),
    }
}
