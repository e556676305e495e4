// The programs: what answers a line, by the program.
#![tactic(auto)]

ghost use Rattle.std.specs.Prelude.{◌≡◌, true, false, ◌≤◌, length};
ghost use Rattle.bridge.specs.State.{Lawful};
ghost use Rattle.columns.specs.Columns.{longest_answer, Prints};
ghost use Rattle.answer.specs.Answer.{Says};
ghost use Rattle.session_programs.specs.Programs.{Rules, ProgramLaws, listing, replay, stamps};
ghost use Rattle.session_programs.specs.Laws.{listing_laws, replay_laws, stamps_laws};

use answer::Answered;
use bridge::Bridge;

// A program, by the lines that it answers. `main` names one, so that where a line is answered the other programs' lines are left out.
pub trait Program {
    // What the lines lead to and print, by document 01.
    ghost rules: { Rules };

    // The bridge before the first line.
    fn first_bridge() -> Bridge
        ensures value { result ≡ rules.start }
        ensures lawful { Lawful result };

    // Whether a line leaves the state as it is.
    fn asks(text: &[u8]) -> bool
        ensures { result ≡ rules.asks text.now };

    // What is printed in out for a line that asks.
    fn asked(b: Bridge, text: &[u8], out: &mut [u8]) -> usize
        requires lawful { Lawful b }
        requires text_value { rules.asks text.now ≡ true }
        requires longest_answer_in_bounds { longest_answer ≤ length out.old }
        ensures { Prints (rules.answer b text.now).text result out.old out.new };

    // The state after a line that does not ask, and what is printed for it in out.
    fn answer_line(b: Bridge, text: &[u8], out: &mut [u8]) -> Answered
        requires lawful { Lawful b }
        requires text_value { rules.asks text.now ≡ false }
        requires longest_answer_in_bounds { longest_answer ≤ length out.old }
        ensures { Says (rules.answer b text.now) result out.old out.new };

    // A line that asks leaves the state, and lines that are too long are answered alike.
    ghost laws: { ProgramLaws rules };
}

// The lines of a capture; none of them asks.
pub struct Listing;

impl Program for Listing {
    ghost rules = { listing };

    fn first_bridge() -> Bridge {
        capture::start()
    }

    fn asks(_text: &[u8]) -> bool {
        false
    }

    // Of a listing's line this is the answer too, whatever it asks: so its clause is met by a call, though none is made.
    fn asked(b: Bridge, text: &[u8], out: &mut [u8]) -> usize
        requires lawful { Lawful b }
        requires longest_answer_in_bounds { longest_answer ≤ length out.old }
        ensures { Prints (listing.answer b text.now).text result out.old out.new }
    {
        capture::answer_line(b, text, out).len
    }

    fn answer_line(b: Bridge, text: &[u8], out: &mut [u8]) -> Answered {
        capture::answer_line(b, text, out)
    }

    ghost laws = { listing_laws };
}

// One call of the library for each line.
pub struct Replay;

impl Program for Replay {
    ghost rules = { replay };

    fn first_bridge() -> Bridge {
        replay_lines::start()
    }

    fn asks(text: &[u8]) -> bool {
        replay_grammar::asks(text)
    }

    fn asked(b: Bridge, text: &[u8], out: &mut [u8]) -> usize {
        replay_lines::asked_line(b, text, out)
    }

    fn answer_line(b: Bridge, text: &[u8], out: &mut [u8]) -> Answered {
        replay_lines::answer_line(b, text, out)
    }

    ghost laws = { replay_laws };
}

// The lines of a capture with latches among them, which ask.
pub struct Stamps;

impl Program for Stamps {
    ghost rules = { stamps };

    fn first_bridge() -> Bridge {
        capture::start()
    }

    fn asks(text: &[u8]) -> bool {
        latch::asks(text)
    }

    fn asked(b: Bridge, text: &[u8], out: &mut [u8]) -> usize {
        latch::asked_line(b, text, out)
    }

    fn answer_line(b: Bridge, text: &[u8], out: &mut [u8]) -> Answered {
        capture::answer_line(b, text, out)
    }

    ghost laws = { stamps_laws };
}
