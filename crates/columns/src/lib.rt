// A line of text by columns. A column is a width and a value: the value's low bytes as capital digits, or at the width 0 one character.
#![tactic(auto)]

ghost use Rattle.std.specs.Prelude.{◌≡◌, ◌++◌, ◌+◌, ◌*◌, ◌≤◌, length, take, drop};
ghost use Rattle.numbers.specs.Bytes.{number_bytes};
ghost use Rattle.hexadecimal.specs.Print.{text_of};
ghost use Rattle.columns.specs.Columns.{column_text, columns_text, column_room, room, bytes_text, bytes_line, line1, line2, line3, line_with, line_time, most_bytes, longest_answer, Prints};

use hexadecimal::{digits, text};

// The width of a column that is one character, and of a byte.
pub const CHARACTER: usize = 0;

pub const BYTE: usize = 1;

// The width of a grand time's seconds, and of its fraction.
const HALF_TIME: usize = 5;

// Characters, as values of a column.
pub const SPACE: u64 = b' ' as u64;

pub const NEWLINE: u64 = b'\n' as u64;

// The longest line that is printed: an answer, a space, 128 bytes as digits, a newline.
// There is no heap, so each function prints into a lent output, of any length from this on, and answers where the text ends: callers cut the output there, and an output of fixed length would ask more of them.
pub const LONGEST_ANSWER: usize = 260;

// The mark of no bytes.
const NO_BYTES: u64 = b'-' as u64;

// How many values a byte has.
const BYTE_VALUES: u64 = 256;

// Stores the digits of the `width` low bytes of a number from `at` on, the last first.
// By places and not by `chunks_exact_mut(DIGITS).rev()`: as in `hexadecimal::text::put`, inside such a loop what is filled so far has no name, and the proof speaks of it. The cast loses nothing after `%`.
fn put_number(out: &mut [u8], at: usize, width: usize, value: u64)
    requires { at + width * 2 ≤ length out.old }
    ensures { out.new ≡ take at out.old ++ (text_of (number_bytes width value) ++ drop (at + width * 2) out.old) }
{
    let mut rest = value;
    for i in (0..width).rev() {
        text::put_byte(out, at + i * digits::DIGITS, (rest % BYTE_VALUES) as u8);
        rest /= BYTE_VALUES;
    }
}

// Prints one column from `at` on, and answers where it ends.
// The width 0 says that the column is a character, as `column_text` says it; so widths are numbers of one list, which `room` sums.
fn put_column(out: &mut [u8], at: usize, width: usize, value: u64) -> usize
    requires { at + column_room width ≤ length out.old }
    ensures value { result ≡ at + length (column_text width value) }
    ensures out_after { out.new ≡ take at out.old ++ (column_text width value ++ drop result out.old) }
{
    if width == CHARACTER {
        out[at] = (value % BYTE_VALUES) as u8;
        return at + 1;
    }
    put_number(out, at, width, value);
    at + width * digits::DIGITS
}

// Prints columns at the start of the output, and answers their length.
// Widths and values are two slices and no slice of pairs: the clause `widths_in_bounds` and `columns_text` speak of each by itself.
pub fn put(out: &mut [u8], widths: &[usize], values: &[u64]) -> usize
    requires widths_len { length widths.now ≡ length values.now }
    requires widths_in_bounds { room widths.now ≤ length out.old }
    ensures value { result ≡ length (columns_text widths.now values.now) }
    ensures out_after { out.new ≡ columns_text widths.now values.now ++ drop result out.old }
{
    let mut at = 0;
    for (width, value) in widths.iter().zip(values) {
        at = put_column(out, at, *width, *value);
    }
    at
}

// Prints bytes, or the mark of none, from `at` on, and answers where they end.
fn put_text(out: &mut [u8], at: usize, bytes: &[u8]) -> usize
    requires { (at + 1 ≤ length out.old) × (at + length bytes.now * 2 ≤ length out.old) }
    ensures value { result ≡ at + length (bytes_text bytes.now) }
    ensures out_after { out.new ≡ take at out.old ++ (bytes_text bytes.now ++ drop result out.old) }
{
    if bytes.is_empty() {
        return put_column(out, at, CHARACTER, NO_BYTES);
    }
    text::put_at(bytes, out, at);
    at + bytes.len() * digits::DIGITS
}

// Prints bytes, or the mark of none, and a newline from `at` on, and answers where they end.
pub fn put_bytes(out: &mut [u8], at: usize, bytes: &[u8]) -> usize
    requires { (at + 2 ≤ length out.old) × (at + length bytes.now * 2 + 1 ≤ length out.old) }
    ensures value { result ≡ at + length (bytes_line bytes.now) }
    ensures out_after { out.new ≡ take at out.old ++ (bytes_line bytes.now ++ drop result out.old) }
{
    let end = put_text(out, at, bytes);
    put_column(out, end, CHARACTER, NEWLINE)
}

// Prints a line of columns.
pub fn line(out: &mut [u8], widths: &[usize], values: &[u64]) -> usize
    requires widths_len { length widths.now ≡ length values.now }
    requires widths_bound { room widths.now ≤ longest_answer }
    requires longest_answer_in_bounds { longest_answer ≤ length out.old }
    ensures { Prints (columns_text widths.now values.now) result out.old out.new }
{
    put(out, widths, values)
}

// Prints one byte.
// `one`, `two` and `three` are no one function of N bytes: its 2N columns are a computed length of an array, and clauses name `line1`, `line2` and `line3`.
pub fn one(out: &mut [u8], a: u8) -> usize
    requires { longest_answer ≤ length out.old }
    ensures { Prints (line1 a) result out.old out.new }
{
    line(out, &[BYTE, CHARACTER], &[u64::from(a), NEWLINE])
}

// Prints two bytes.
pub fn two(out: &mut [u8], a: u8, b: u8) -> usize
    requires { longest_answer ≤ length out.old }
    ensures { Prints (line2 a b) result out.old out.new }
{
    line(
        out,
        &[BYTE, CHARACTER, BYTE, CHARACTER],
        &[u64::from(a), SPACE, u64::from(b), NEWLINE],
    )
}

// Prints three bytes.
pub fn three(out: &mut [u8], a: u8, b: u8, c: u8) -> usize
    requires { longest_answer ≤ length out.old }
    ensures { Prints (line3 a b c) result out.old out.new }
{
    line(
        out,
        &[BYTE, CHARACTER, BYTE, CHARACTER, BYTE, CHARACTER],
        &[
            u64::from(a),
            SPACE,
            u64::from(b),
            SPACE,
            u64::from(c),
            NEWLINE,
        ],
    )
}

// Prints one byte and then bytes.
pub fn with_bytes(out: &mut [u8], a: u8, bytes: &[u8]) -> usize
    requires bytes_len_bound { length bytes.now ≤ most_bytes }
    requires longest_answer_in_bounds { longest_answer ≤ length out.old }
    ensures { Prints (line_with a bytes.now) result out.old out.new }
{
    let at = put(out, &[BYTE, CHARACTER], &[u64::from(a), SPACE]);
    put_bytes(out, at, bytes)
}

// Prints one byte and then a grand time, its seconds and its fraction: two numbers, since no crate of times stands below this one.
pub fn with_time(out: &mut [u8], a: u8, seconds: u64, fraction: u64) -> usize
    requires { longest_answer ≤ length out.old }
    ensures { Prints (line_time a seconds fraction) result out.old out.new }
{
    line(
        out,
        &[BYTE, CHARACTER, HALF_TIME, HALF_TIME, CHARACTER],
        &[u64::from(a), SPACE, seconds, fraction, NEWLINE],
    )
}

// Prints bytes.
pub fn only_bytes(out: &mut [u8], bytes: &[u8]) -> usize
    requires bytes_len_bound { length bytes.now ≤ most_bytes }
    requires longest_answer_in_bounds { longest_answer ≤ length out.old }
    ensures { Prints (bytes_line bytes.now) result out.old out.new }
{
    put_bytes(out, 0, bytes)
}
