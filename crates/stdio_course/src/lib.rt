// How a run goes on: what a read and a write answered decides it, and nothing else.
#![tactic(auto)]

ghost use Rattle.std.specs.Prelude.{◌≡◌};
ghost use Rattle.stdio_course.specs.Course.{course_after, reads_on, onward_after};

// The input goes on, or has ended; or a read failed, or a write did.
#[derive(Clone, Copy, Debug, PartialEq, Eq)]
pub enum Course {
    On,
    Ended,
    InputLost,
    OutputLost,
}

// How a run goes on after a read that gave so many bytes, or failed, all its answers being written or not: `course_after` is of these two, and an output that is lost tells nothing more.
pub fn after(got: Option<usize>, wrote: bool) -> Course
    ensures { result ≡ course_after got wrote }
{
    if !wrote {
        return Course::OutputLost;
    }
    match got {
        None => Course::InputLost,
        Some(0) => Course::Ended,
        Some(_) => Course::On,
    }
}

// Whether it reads on.
pub fn reads_on(course: Course) -> bool
    ensures { result ≡ reads_on course }
{
    matches!(course, Course::On)
}

// Where the bytes of a read go on after a write: where the turn left them; where its output was lost, behind the last.
pub fn onward(wrote: bool, rest: usize, size: usize) -> usize
    ensures { result ≡ onward_after wrote rest size }
{
    if wrote { rest } else { size }
}
