// Lines one after the other, whatever reads cut them: each is answered by a program, and the start of one that was cut off is kept.
#![tactic(auto)]

pub mod lines;

ghost use Rattle.std.specs.Prelude.{◌≡◌, [], ◌≤◌, length, take};
ghost use Rattle.columns.specs.Columns.{longest_answer};
ghost use Rattle.session.specs.Input.{rest_text};
ghost use Rattle.session.specs.Session.{line_of, Ready, Turned};

use crate::lines::{NEWLINE, kept, whole_lines};
use bridge::Bridge;
use hexadecimal::search;
use session_programs::Program;

// What is kept from read to read: the bridge, and the line as far as it is read.
// The line is an array with a length beside it, since memory is fixed: no heap is a rule of the project.
#[derive(Clone, Copy)]
pub struct Session {
    pub bridge: Bridge,
    pub text: [u8; 516],
    pub len: usize,
}

// What a turn leaves: the session, how much of the output is filled, and where the bytes go on.
#[derive(Clone, Copy)]
pub struct Progress {
    pub session: Session,
    pub filled: usize,
    pub rest: usize,
}

// A program's session before the first line.
pub fn start<P: Program>() -> Session
    ensures ready { Ready result }
    ensures bridge_value { result.bridge ≡ P.rules.start }
    ensures result_value { line_of result ≡ [] }
{
    Session {
        bridge: P::first_bridge(),
        text: [0u8; 516],
        len: 0,
    }
}

// Answers lines that end in the bytes from `from` on, as long as the output has room; where none ends, keeps the start of one.
pub fn turn<P: Program>(s: Session, bytes: &[u8], from: usize, out: &mut [u8]) -> Progress
    requires ready { Ready s }
    requires from_in_bounds { (from ≤ length bytes.now) × (longest_answer ≤ length out.old) }
    ensures { Turned P.rules s bytes.now from result out.new }
{
    let mut text = s.text;
    let end = search::found(bytes, from, NEWLINE);
    let len = kept(&mut text, s.len, &bytes[from..end]);
    if end == bytes.len() {
        return Progress {
            session: Session {
                bridge: s.bridge,
                text,
                len,
            },
            filled: 0,
            rest: end,
        };
    }
    let lines = whole_lines::<P>(s.bridge, &text[..len], bytes, from, out);
    Progress {
        session: Session {
            bridge: lines.next,
            text,
            len: 0,
        },
        filled: lines.filled,
        rest: lines.rest,
    }
}

// Answers what is left of a line at the end of the input; an empty rest is no line. How much of the output is filled.
pub fn at_end<P: Program>(s: Session, out: &mut [u8]) -> usize
    requires ready { Ready s }
    requires longest_answer_in_bounds { longest_answer ≤ length out.old }
    ensures upper_bound { result ≤ length out.new }
    ensures out_after { take result out.new ≡ rest_text P.rules s.bridge (line_of s) }
{
    if s.len == 0 {
        return 0;
    }
    turn::<P>(s, b"\n", 0, out).filled
}
