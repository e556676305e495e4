// One field of a line: what its kind wants, and what the field says.
ghost use Rattle.std.specs.Prelude.{◌≡◌, ◌≤◌, length, drop};
ghost use Rattle.forms.specs.Field.{most_digits, number_rule, bytes_rule, rule_of, is_mark, are_digits, bytes_field, number_field, field_of, field_at};

use crate::kind::Kind;
use hexadecimal::{digits, search};

const SPACE: u8 = b' ';

// The most digits of a number, of a flag, and of up to 128 bytes.
const MOST_DIGITS: usize = 16;

const FLAG_DIGITS: usize = 1;

const MOST_BYTE_DIGITS: usize = 256;

// The greatest byte, flag, length of an output and number.
const MOST_BYTE: u64 = 255;

const MOST_FLAG: u64 = 1;

const MOST_LENGTH: u64 = 128;

const MOST_NUMBER: u64 = u64::MAX;

// The marks.
const DEFAULT: u8 = b'D';

const MEASURED: u8 = b'M';

const NO_BYTES: u8 = b'-';

// What digits make: a number up to the greatest, or bytes.
#[derive(Clone, Copy)]
pub enum Content {
    UpTo(u64),
    WholeBytes,
}

// What a kind wants: its mark, where it has one, or digits from the fewest to the most, and what they make.
#[derive(Clone, Copy)]
pub struct Rule {
    pub mark: Option<u8>,
    pub fewest: usize,
    pub most: usize,
    pub content: Content,
}

// What a field of its kind says: whether it is the mark, its number, how many bytes and how many characters it has.
// The mark stands beside the number and is no case without one, since `Form` has both of each field in arrays of their own (see there).
#[derive(Clone, Copy)]
pub struct Field {
    pub marked: bool,
    pub number: u64,
    pub size: usize,
    pub width: usize,
}

// The rule of a number.
fn number_rule(mark: Option<u8>, most: usize, greatest: u64) -> Rule
    ensures { result ≡ number_rule mark most greatest }
{
    Rule {
        mark,
        fewest: 1,
        most,
        content: Content::UpTo(greatest),
    }
}

// The rule of bytes.
fn bytes_rule(mark: Option<u8>, fewest: usize, most: usize) -> Rule
    ensures { result ≡ bytes_rule mark fewest most }
{
    Rule {
        mark,
        fewest,
        most,
        content: Content::WholeBytes,
    }
}

// The rule of each kind.
#[tactic(auto, unfolding(crate::specs::Field::rule_of))]
fn rule_of(kind: Kind) -> Rule
    ensures { result ≡ rule_of kind }
{
    match kind {
        Kind::Byte => number_rule(None, MOST_DIGITS, MOST_BYTE),
        Kind::Number => number_rule(None, MOST_DIGITS, MOST_NUMBER),
        Kind::NumberOrDefault => number_rule(Some(DEFAULT), MOST_DIGITS, MOST_NUMBER),
        Kind::DelayOrMeasured => number_rule(Some(MEASURED), MOST_DIGITS, MOST_NUMBER),
        Kind::Flag => number_rule(None, FLAG_DIGITS, MOST_FLAG),
        Kind::Length => number_rule(None, MOST_DIGITS, MOST_LENGTH),
        Kind::Bytes => bytes_rule(Some(NO_BYTES), digits::DIGITS, MOST_BYTE_DIGITS),
        Kind::Exactly(n) => {
            let digits = usize::from(n) * digits::DIGITS;
            bytes_rule(None, digits, digits)
        }
    }
}

// Whether a field is its kind's mark.
#[tactic(auto, unfolding(crate::specs::Field::is_mark))]
fn is_mark(text: &[u8], mark: Option<u8>) -> bool
    ensures { result ≡ is_mark text.now mark }
{
    mark.is_some_and(|mark| text.len() == 1 && text[0] == mark)
}

// Whether a field is digits, from the fewest to the most.
#[tactic(auto, unfolding(crate::specs::Field::are_digits))]
fn are_digits(text: &[u8], fewest: usize, most: usize) -> bool
    ensures { result ≡ are_digits text.now fewest most }
{
    fewest <= text.len() && text.len() <= most && digits::all(text)
}

// A field of so many digits as bytes, for which there is so much room.
#[tactic(auto, unfolding(crate::specs::Field::bytes_field))]
fn as_bytes(width: usize, room: usize) -> Option<Field>
    ensures { result ≡ bytes_field width room }
{
    let size = width / digits::DIGITS;
    if width % digits::DIGITS != 0 || room < size {
        return None;
    }
    Some(Field {
        marked: false,
        number: size as u64,
        size,
        width,
    })
}

// A field of digits as a number up to the greatest.
fn as_number(text: &[u8], greatest: u64) -> Option<Field>
    requires { length text.now ≤ most_digits }
    ensures { result ≡ number_field greatest text.now }
{
    let number = digits::number(text);
    if greatest < number {
        return None;
    }
    Some(Field {
        marked: false,
        number,
        size: 0,
        width: text.len(),
    })
}

// What a field says, by its kind; nothing where it is none of that kind.
fn of_kind(kind: Kind, text: &[u8], room: usize) -> Option<Field>
    ensures { result ≡ field_of kind room text.now }
{
    let rule = rule_of(kind);
    let width = text.len();
    if is_mark(text, rule.mark) {
        return Some(Field {
            marked: true,
            number: 0,
            size: 0,
            width,
        });
    }
    if !are_digits(text, rule.fewest, rule.most) {
        return None;
    }
    match rule.content {
        Content::UpTo(greatest) => as_number(text, greatest),
        Content::WholeBytes => as_bytes(width, room),
    }
}

// What the field says that follows a space at `from`.
pub fn at(kind: Kind, text: &[u8], from: usize, room: usize) -> Option<Field>
    ensures { result ≡ field_at kind room (drop from text.now) }
{
    if text.len() <= from || text[from] != SPACE {
        return None;
    }
    let start = from + 1;
    let end = search::found(text, start, SPACE);
    of_kind(kind, &text[start..end], room)
}
