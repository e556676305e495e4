// The lines of replay over frames alone, and over a hop. Above each stands the line; its fields are counted from 0, the first after the letter. No bridge is known here.
#![tactic(auto)]

ghost use Rattle.std.specs.Prelude.{◌≡◌, ◌≤◌, length, take, drop};
ghost use Rattle.frame.specs.Read.{read_of};
ghost use Rattle.forms.specs.Field.{most_length};
ghost use Rattle.forms.specs.Form.{buffer_bytes};
ghost use Rattle.forms.specs.Value.{byte_in, size_in};
ghost use Rattle.columns.specs.Columns.{longest_answer, Prints};
ghost use Rattle.replay_frames.specs.Frames.{mac_from, precedence_from, error_in, fields_in, untouched, field_values, read_text, write_text, better_text_of, passes_text, plain_text};

use choice::Precedence;
use columns::{BYTE, CHARACTER, NEWLINE, SPACE};
use forms::{Form, value};
use frame::{Fields, Mac};
use refusals::Refusal;
use times::{ErrorTime, GrandTime, LocalTime};

// Where the parts of a precedence and an errorTime stand in the line's bytes, and how many bytes a part has that is more than one.
const PRIORITY1: usize = 6;

const SOURCE: usize = 7;

const VARIANCE: usize = 8;

const VARIANCE_BYTES: usize = 2;

const PRIORITY2: usize = 10;

const CLOCK: usize = 11;

const CLOCK_BYTES: usize = 8;

const ERROR: usize = 19;

const ERROR_BYTES: usize = 4;

// Where the fields of W stand that are numbers.
const HOP_FIELD: usize = 2;

const COUNT_FIELD: usize = 3;

const SECONDS_FIELD: usize = 4;

const FRACTION_FIELD: usize = 5;

const LOCAL_FIELD: usize = 6;

const TX_FIELD: usize = 7;

const RX_FIELD: usize = 8;

const VERSION_FIELD: usize = 10;

const LENGTH_FIELD: usize = 11;

// What every byte of an output is before a call, and how many bytes an output has at most.
pub const UNTOUCHED: u8 = 0xA5;

pub const MOST_LENGTH: usize = 128;

// The address at the start of the line's bytes.
pub fn mac(b: &[u8; 256]) -> Mac
    ensures { result ≡ mac_from b.now }
{
    Mac(b[0], b[1], b[2], b[3], b[4], b[5])
}

// The precedence after it. The casts in this file lose nothing: as many bytes make the number as the type has.
pub fn precedence(b: &[u8; 256]) -> Precedence
    ensures { result ≡ precedence_from b.now }
{
    Precedence {
        priority1: b[PRIORITY1],
        source: b[SOURCE],
        variance: numbers_bytes::number_at(b, VARIANCE, VARIANCE_BYTES) as u16,
        priority2: b[PRIORITY2],
        clock: numbers_bytes::number_at(b, CLOCK, CLOCK_BYTES),
    }
}

// The errorTime after both.
fn error(b: &[u8; 256]) -> ErrorTime
    ensures { result ≡ error_in b.now }
{
    ErrorTime(numbers_bytes::number_at(b, ERROR, ERROR_BYTES) as u32)
}

// The fields of a frame to be written.
#[tactic(auto, unfolding(crate::specs::Frames::fields_in))]
fn frame_fields(form: Form) -> Fields
    ensures { result ≡ fields_in form }
{
    Fields {
        sa: mac(&form.bytes),
        precedence: precedence(&form.bytes),
        hop: value::byte(form, HOP_FIELD),
        count: value::byte(form, COUNT_FIELD),
        grand: GrandTime(form.numbers[SECONDS_FIELD], form.numbers[FRACTION_FIELD]),
        local: LocalTime(form.numbers[LOCAL_FIELD]),
        tx: LocalTime(form.numbers[TX_FIELD]),
        rx: LocalTime(form.numbers[RX_FIELD]),
        error: error(&form.bytes),
        version: value::byte(form, VERSION_FIELD),
    }
}

// How many columns a frame's fields have, and how many bytes each.
const COLUMNS: usize = 32;

const WIDTHS: [usize; COLUMNS] = [
    BYTE, CHARACTER, BYTE, BYTE, BYTE, BYTE, BYTE, BYTE, CHARACTER, BYTE, BYTE, 2, BYTE, 8,
    CHARACTER, BYTE, CHARACTER, BYTE, CHARACTER, 5, 5, CHARACTER, 6, CHARACTER, 6, CHARACTER, 6,
    CHARACTER, 4, CHARACTER, BYTE, CHARACTER,
];

// What each column of a frame's fields says.
fn values(f: &Fields) -> [u64; COLUMNS]
    ensures { result ≡ field_values f.now }
{
    [
        u64::from(refusals::DONE),
        SPACE,
        u64::from(f.sa.0),
        u64::from(f.sa.1),
        u64::from(f.sa.2),
        u64::from(f.sa.3),
        u64::from(f.sa.4),
        u64::from(f.sa.5),
        SPACE,
        u64::from(f.precedence.priority1),
        u64::from(f.precedence.source),
        u64::from(f.precedence.variance),
        u64::from(f.precedence.priority2),
        f.precedence.clock,
        SPACE,
        u64::from(f.hop),
        SPACE,
        u64::from(f.count),
        SPACE,
        f.grand.0,
        f.grand.1,
        SPACE,
        f.local.0,
        SPACE,
        f.tx.0,
        SPACE,
        f.rx.0,
        SPACE,
        u64::from(f.error.0),
        SPACE,
        u64::from(f.version),
        NEWLINE,
    ]
}

// Prints what a frame says, or why it can't be read. The refusal is printed here, since the text is promised by a definition of its own, `read_text`.
fn reading(said: Result<Fields, Refusal>, out: &mut [u8]) -> usize
    requires { longest_answer ≤ length out.old }
    ensures { Prints (read_text said) result out.old out.new }
{
    match said {
        Ok(f) => columns::line(out, &WIDTHS, &values(&f)),
        Err(refusal) => columns::one(out, u8::from(refusal)),
    }
}

// `F frame`.
fn read(form: Form, out: &mut [u8]) -> usize
    requires { longest_answer ≤ length out.old }
    ensures { Prints (read_text (read_of (take (size_in form 0) form.bytes))) result out.old out.new }
{
    let n = value::size(form, 0);
    reading(frame_read::read(&form.bytes[..n]), out)
}

// Write into an output of at most 128 bytes.
fn written(f: Fields, frame: &mut [u8], out: &mut [u8]) -> usize
    requires frame_len_bound { length frame.old ≤ most_length }
    requires longest_answer_in_bounds { longest_answer ≤ length out.old }
    ensures { Prints (write_text f frame.old) result out.old out.new }
{
    let answer = frame_write::write(f, frame);
    columns::with_bytes(out, refusals::number(answer), frame)
}

// `W sa prec hop count sec frac local tx rx error version length`.
fn write(form: Form, out: &mut [u8]) -> usize
    requires { longest_answer ≤ length out.old }
    ensures { Prints (write_text (fields_in form) (untouched (size_in form 11))) result out.old out.new }
{
    let n = value::size(form, LENGTH_FIELD);
    let mut frame = [UNTOUCHED; MOST_LENGTH];
    written(frame_fields(form), &mut frame[..n], out)
}

// `B a b`.
fn better(form: Form, out: &mut [u8]) -> usize
    requires { longest_answer ≤ length out.old }
    ensures { Prints (better_text_of (take (size_in form 0) form.bytes) (take (size_in form 1) (drop (size_in form 0) form.bytes))) result out.old out.new }
{
    let n = value::size(form, 0);
    let end = n + value::size(form, 1);
    columns::only_bytes(
        out,
        frame_better::better(&form.bytes[..n], &form.bytes[n..end]),
    )
}

// `H hop`.
fn passes(form: Form, out: &mut [u8]) -> usize
    requires { longest_answer ≤ length out.old }
    ensures { Prints (passes_text (byte_in form 0)) result out.old out.new }
{
    columns::one(out, choice_passes::passes_left(value::byte(form, 0)))
}

// What is printed for the letter of a plain line, with what its fields say: of a frame's or a hop's, or else of the lines of times.
// A letter is the line's own byte, and a table of closures is no plainer than this match.
// `bytes_len` says what the type says too; it stands, since a public contract keeps its words.
#[tactic(auto, unfolding(crate::specs::Frames::plain_text))]
pub fn asked(letter: u8, form: Form, out: &mut [u8]) -> usize
    requires bytes_len { length form.bytes ≡ buffer_bytes }
    requires longest_answer_in_bounds { longest_answer ≤ length out.old }
    ensures { Prints (plain_text letter form) result out.old out.new }
{
    match letter {
        b'F' => read(form, out),
        b'W' => write(form, out),
        b'B' => better(form, out),
        b'H' => passes(form, out),
        _ => replay_times::asked(letter, form, out),
    }
}
