// A program over an input and an output: lines to the end of the input, and their answers.
#![tactic(auto)]

ghost use Rattle.std.specs.Prelude.{◌≡◌, true, ◌⊎◌, ◌<◌, ◌≤◌, length, IfSome};
ghost use Rattle.std.specs.Io.KnownBytes.{Appends};
ghost use Rattle.columns.specs.Columns.{longest_answer};
ghost use Rattle.session.specs.Lines.{fed_of};
ghost use Rattle.session.specs.Input.{rest_text};
ghost use Rattle.session.specs.Session.{line_of, Ready, Leaves};
ghost use Rattle.stdio_course.specs.declared.Course.TheVariants.{Ended, OutputLost};
ghost use Rattle.stdio.specs.Run.{Stopped, Gave, Answered};

use session::Session;
use session_programs::Program;
use std::io::{Read, Write};
use std::process::ExitCode;
use stdio_course::Course;

// How many bytes are read or written at once.
const BUFFER: usize = 65536;

// A run that has stopped: how it went, and how many reads it made.
#[derive(Clone, Copy)]
pub struct Ending {
    pub course: Course,
    pub reads: u64,
}

// Reads some bytes; how many, or nothing where the read failed.
fn read_some<R: Read>(input: &mut R, bytes: &mut [u8]) -> Option<usize>
    requires { 0 < length bytes.old }
    ensures inside { IfSome result (λ n. n ≤ length bytes.new) }
    ensures gave { Gave result (R.remaining input.old) (R.remaining input.new) bytes.new }
{
    input.read(bytes).ok()
}

// Writes bytes; whether all of them were written.
fn put<W: Write>(output: &mut W, bytes: &[u8]) -> bool
    ensures { result ≡ true → Appends (W.contents output.old) (W.contents output.new) bytes.now }
{
    output.write_all(bytes).is_ok()
}

// Answers what a read gave, and writes the answers, in a session that it is lent; whether all of them were written. A lost output is the last.
// That a write was lost ends the loop by `onward`: where the bytes go on then is a rule with a definition and edits of its own (`onward_after`).
fn answered<P: Program, W: Write>(
    s: &mut Session,
    bytes: &[u8],
    out: &mut [u8],
    output: &mut W,
) -> bool
    requires ready { Ready s.old }
    requires longest_answer_in_bounds { longest_answer ≤ length out.old }
    ensures ready_2 { Ready s.new }
    ensures leaves { result ≡ true → Leaves (fed_of P.rules s.old.bridge (line_of s.old) bytes.now) s.new }
    ensures writes { result ≡ true →
        Appends (W.contents output.old) (W.contents output.new) (fed_of P.rules s.old.bridge (line_of s.old) bytes.now).text }
{
    let mut from = 0;
    let mut wrote = true;
    while from < bytes.len() {
        let turn = session::turn::<P>(*s, bytes, from, out);
        wrote = put(output, &out[..turn.filled]);
        *s = turn.session;
        from = stdio_course::onward(wrote, turn.rest, bytes.len());
    }
    wrote
}

// At the end of the input, answers what is left of a line and writes the answer; how the run went then.
fn closed<P: Program, W: Write>(
    s: Session,
    course: Course,
    out: &mut [u8],
    output: &mut W,
) -> Course
    requires ready { Ready s }
    requires longest_answer_in_bounds { longest_answer ≤ length out.old }
    ensures went_on { (result ≡ course) ⊎ (result ≡ OutputLost) }
    ensures writes { result ≡ Ended →
        Appends (W.contents output.old) (W.contents output.new) (rest_text P.rules s.bridge (line_of s)) }
{
    match course {
        Course::Ended => {
            let filled = session::at_end::<P>(s, out);
            let wrote = put(output, &out[..filled]);
            stdio_course::after(Some(0), wrote)
        }
        Course::On | Course::InputLost | Course::OutputLost => course,
    }
}

// Tells what was lost.
fn tell<E: Write>(course: Course, errors: &mut E) -> bool {
    match course {
        Course::InputLost => put(errors, b"input lost: standard input could not be read\n"),
        Course::OutputLost => put(
            errors,
            b"output lost: standard output could not be written\n",
        ),
        Course::On | Course::Ended => true,
    }
}

// Reads to the end of the input and answers its lines; a lost input or output stops it and is told.
// The reads are counted by hand, since `Ending` says how many there were and `Stopped` speaks of them.
pub fn run<P: Program, R: Read, W: Write, E: Write>(
    input: &mut R,
    output: &mut W,
    errors: &mut E,
) -> Ending
    ensures stopped { Stopped result }
    ensures answered { result.course ≡ Ended →
        Answered P.rules (R.remaining input.old) (W.contents output.old) (W.contents output.new) }
{
    let mut s = session::start::<P>();
    let mut bytes = [0u8; BUFFER];
    let mut out = [0u8; BUFFER];
    let mut course = Course::On;
    let mut reads: u64 = 0;
    while reads < u64::MAX && stdio_course::reads_on(course) {
        let got = read_some(input, &mut bytes);
        let wrote = answered::<P, W>(&mut s, &bytes[..got.unwrap_or(0)], &mut out, output);
        course = stdio_course::after(got, wrote);
        reads += 1;
    }
    let end = closed::<P, W>(s, course, &mut out, output);
    tell(end, errors);
    Ending { course: end, reads }
}

// The status that a process ends with: a failure where input or output was lost.
fn status(course: Course) -> ExitCode {
    match course {
        Course::InputLost | Course::OutputLost => ExitCode::FAILURE,
        Course::On | Course::Ended => ExitCode::SUCCESS,
    }
}

// Runs over standard input and output, and tells on standard error what was lost.
pub fn run_here<P: Program>(rt: HostRuntime) -> ExitCode {
    let mut input = rt.stdin();
    let mut output = rt.stdout();
    let mut errors = rt.stderr();
    let ending = run::<P, _, _, _>(&mut input, &mut output, &mut errors);
    status(ending.course)
}
