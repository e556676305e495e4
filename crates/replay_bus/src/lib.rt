// The lines of replay over the cycle time of a bus. Above each stands the line; its fields are counted from 0, the first after the letter. No bridge is known here.
// No line of replay comes here yet: `replay_grammar` has no rows for Y and Z, which come with C-23.
#![tactic(auto)]

ghost use Rattle.std.specs.Prelude.{◌≡◌, ◌≤◌, length};
ghost use Rattle.bus.specs.Bus.{outward_of, inward_of};
ghost use Rattle.forms.specs.Form.{number_in};
ghost use Rattle.columns.specs.Columns.{longest_answer, Prints};
ghost use Rattle.replay_bus.specs.Bus.{bus_time_in, hint_in, first_digit, bus_time_text, outward_text, inward_text, bus_text};

use bus::BusTime;
use columns::{BYTE, CHARACTER, NEWLINE, SPACE};
use forms::Form;
use hexadecimal::digits;
use refusals::Refusal;
use times::GrandTime;

// The bytes of a cycle.
const CYCLE: usize = 2;

// How many values a byte has, and a digit.
const BYTE_VALUES: u64 = 256;

const DIGIT_VALUES: u64 = 16;

// The first of an offset's three digits; the other two are those of its low byte.
fn first_digit(offset: u64) -> u8
    ensures { result ≡ first_digit offset }
{
    // The cast loses nothing: a digit is below 16.
    digits::capital((offset / BYTE_VALUES % DIGIT_VALUES) as u8)
}

// Prints the fields of a bus time after the answer 0.
fn fields(time: BusTime, out: &mut [u8]) -> usize
    requires { longest_answer ≤ length out.old }
    ensures { Prints (bus_time_text time) result out.old out.new }
{
    columns::line(
        out,
        &[
            BYTE, CHARACTER, BYTE, CHARACTER, CYCLE, CHARACTER, CHARACTER, BYTE, CHARACTER,
        ],
        &[
            u64::from(refusals::DONE),
            SPACE,
            time.seconds,
            SPACE,
            time.cycle,
            SPACE,
            u64::from(first_digit(time.offset)),
            time.offset,
            NEWLINE,
        ],
    )
}

// `Y sec frac`.
// A refusal is printed in each function here: each promises a text by a definition of its own (`outward_text`, `inward_text`).
fn outward(form: &Form, out: &mut [u8]) -> usize
    requires { longest_answer ≤ length out.old }
    ensures { Prints (outward_text (outward_of (record { 0 = number_in form.now 0; 1 = number_in form.now 1 }))) result out.old out.new }
{
    match bus_time::outward(GrandTime(form.numbers[0], form.numbers[1])) {
        Ok(time) => fields(time, out),
        Err(refusal) => columns::one(out, u8::from(refusal)),
    }
}

// `Z seconds cycle offset sec frac`.
fn inward(form: &Form, out: &mut [u8]) -> usize
    requires { longest_answer ≤ length out.old }
    ensures { Prints (inward_text (inward_of (bus_time_in form.now) (hint_in form.now))) result out.old out.new }
{
    let time = BusTime {
        seconds: form.numbers[0],
        cycle: form.numbers[1],
        offset: form.numbers[2],
    };
    match bus_time::inward(time, GrandTime(form.numbers[3], form.numbers[4])) {
        Ok(grand) => columns::with_time(out, refusals::DONE, grand.0, grand.1),
        Err(refusal) => columns::one(out, u8::from(refusal)),
    }
}

// What is printed for a letter, with what its fields say; that the line is bad where no call has the letter.
// A letter is the line's own byte, and a table of closures is no plainer than this match.
#[tactic(auto, unfolding(crate::specs::Bus::bus_text))]
pub fn asked(letter: u8, form: Form, out: &mut [u8]) -> usize
    requires { longest_answer ≤ length out.old }
    ensures { Prints (bus_text letter form) result out.old out.new }
{
    match letter {
        b'Y' => outward(&form, out),
        b'Z' => inward(&form, out),
        _ => columns::one(out, u8::from(Refusal::BadLine)),
    }
}
