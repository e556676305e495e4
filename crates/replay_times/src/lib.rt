// The lines of replay over times alone, for a PTP analyser. Above each stands the line; its fields are counted from 0, the first after the letter. No bridge is known here.
#![tactic(auto)]

ghost use Rattle.std.specs.Prelude.{◌≡◌, ◌≤◌, length};
ghost use Rattle.ptp.specs.Timestamp.{export_of, import_of};
ghost use Rattle.ptp.specs.Scale.{gps_of, utc_of, ntp_of};
ghost use Rattle.forms.specs.Form.{number_in};
ghost use Rattle.columns.specs.Columns.{longest_answer, Prints};
ghost use Rattle.replay_times.specs.Times.{second_in, leap_in, timestamp_text, export_text, import_text, scale_text, gps_text, utc_text, ntp_text, times_text};

use columns::{BYTE, CHARACTER, NEWLINE, SPACE};
use forms::Form;
use ptp::{PtpSecond, PtpTime};
use refusals::Refusal;
use times::GrandTime;

// The bytes of leap seconds, and where they stand in the line's bytes.
const LEAP_BYTES: usize = 2;

const LEAP_AT: usize = 0;

// The bytes of a second and of a nanosecond.
const SECOND: usize = 6;

const NANOSECOND: usize = 4;

// The leap seconds at the start of the line's bytes, in two's complement.
fn leap(form: &Form) -> i16
    ensures { result ≡ leap_in form.now.bytes }
{
    // The cast loses nothing: two bytes make the number.
    (numbers_bytes::number_at(&form.bytes, LEAP_AT, LEAP_BYTES) as u16).cast_signed()
}

// Prints a PTP time after the answer 0.
fn timestamp(time: PtpTime, out: &mut [u8]) -> usize
    requires { longest_answer ≤ length out.old }
    ensures { Prints (timestamp_text time) result out.old out.new }
{
    let PtpTime(PtpSecond(second), nanosecond) = time;
    columns::line(
        out,
        &[BYTE, CHARACTER, SECOND, CHARACTER, NANOSECOND, CHARACTER],
        &[
            u64::from(refusals::DONE),
            SPACE,
            second,
            SPACE,
            nanosecond,
            NEWLINE,
        ],
    )
}

// `X sec frac`.
// A refusal is printed in each function here: each promises a text by a definition of its own (`export_text`, `import_text`, `scale_text`).
fn export(form: &Form, out: &mut [u8]) -> usize
    requires { longest_answer ≤ length out.old }
    ensures { Prints (export_text (export_of (record { 0 = number_in form.now 0; 1 = number_in form.now 1 }))) result out.old out.new }
{
    match ptp_timestamp::export(GrandTime(form.numbers[0], form.numbers[1])) {
        Ok(time) => timestamp(time, out),
        Err(refusal) => columns::one(out, u8::from(refusal)),
    }
}

// `I sec nano`.
fn import(form: &Form, out: &mut [u8]) -> usize
    requires { longest_answer ≤ length out.old }
    ensures { Prints (import_text (import_of (record { 0 = second_in form.now; 1 = number_in form.now 1 }))) result out.old out.new }
{
    match ptp_timestamp::import(PtpTime(PtpSecond(form.numbers[0]), form.numbers[1])) {
        Ok(time) => columns::with_time(out, refusals::DONE, time.0, time.1),
        Err(refusal) => columns::one(out, u8::from(refusal)),
    }
}

// Prints the number of a scale's second after the answer 0, or a refusal.
fn scale(answer: Result<u64, Refusal>, out: &mut [u8]) -> usize
    requires { longest_answer ≤ length out.old }
    ensures { Prints (scale_text (λ n. n) answer) result out.old out.new }
{
    match answer {
        Ok(second) => columns::line(
            out,
            &[BYTE, CHARACTER, SECOND, CHARACTER],
            &[u64::from(refusals::DONE), SPACE, second, NEWLINE],
        ),
        Err(refusal) => columns::one(out, u8::from(refusal)),
    }
}

// `G sec`.
fn gps(form: &Form, out: &mut [u8]) -> usize
    requires { longest_answer ≤ length out.old }
    ensures { Prints (gps_text (gps_of (second_in form.now))) result out.old out.new }
{
    let answer = ptp_scales::gps(PtpSecond(form.numbers[0]));
    scale(answer.map(|second| second.0), out)
}

// `U sec leap`.
fn utc(form: &Form, out: &mut [u8]) -> usize
    requires { longest_answer ≤ length out.old }
    ensures { Prints (utc_text (utc_of (second_in form.now) (leap_in form.now.bytes))) result out.old out.new }
{
    let answer = ptp_scales::utc(PtpSecond(form.numbers[0]), leap(form));
    scale(answer.map(|second| second.0), out)
}

// `N sec leap`.
fn ntp(form: &Form, out: &mut [u8]) -> usize
    requires { longest_answer ≤ length out.old }
    ensures { Prints (ntp_text (ntp_of (second_in form.now) (leap_in form.now.bytes))) result out.old out.new }
{
    let answer = ptp_scales::ntp(PtpSecond(form.numbers[0]), leap(form));
    scale(answer.map(|second| second.0), out)
}

// What is printed for a letter, with what its fields say; that the line is bad where no call has the letter.
// A letter is the line's own byte, and a table of closures is no plainer than this match.
#[tactic(auto, unfolding(crate::specs::Times::times_text))]
pub fn asked(letter: u8, form: Form, out: &mut [u8]) -> usize
    requires { longest_answer ≤ length out.old }
    ensures { Prints (times_text letter form) result out.old out.new }
{
    match letter {
        b'X' => export(&form, out),
        b'I' => import(&form, out),
        b'G' => gps(&form, out),
        b'U' => utc(&form, out),
        b'N' => ntp(&form, out),
        _ => columns::one(out, u8::from(Refusal::BadLine)),
    }
}
