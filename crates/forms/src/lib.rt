// A line's fields, read by a row of their kinds.
#![tactic(auto)]

ghost use Rattle.std.specs.Prelude.{◌≡◌};
ghost use Rattle.forms.specs.Form.{form_of};

use crate::kind::Kind;
use hexadecimal::digits;

pub mod field;
pub mod kind;
pub mod value;

// The most fields of a row, and the bytes of all of them.
const FIELDS: usize = 16;

const ROOM: usize = 256;

// What the fields of a line say: whether each is its kind's mark; its number, or how many bytes it has; and the bytes of all, one after the other.
// Three arrays and no array of records: `marked_in`, `number_in` and the promises on lines speak of each by itself.
// The order of the parts is measured: with the marks behind the numbers every line costs one copy more (docs/DECISIONS.md, Copies).
#[derive(Clone, Copy)]
pub struct Form {
    pub marked: [bool; FIELDS],
    pub numbers: [u64; FIELDS],
    pub bytes: [u8; ROOM],
}

// Reads the rest of a line, a space before each field, by the row of their kinds; nothing where a field is none of its kind or more follows.
pub fn read(row: &[Kind], rest: &[u8]) -> Option<Form>
    ensures { result ≡ form_of row.now rest.now }
{
    let mut numbers = [0u64; FIELDS];
    let mut marked = [false; FIELDS];
    let mut bytes = [0u8; ROOM];
    // How far the room and the text are used up: a field takes as much of both as it says, so neither goes by i.
    let mut used: usize = 0;
    let mut at: usize = 0;
    let kinds = &row[..row.len().min(FIELDS)];
    for (i, kind) in kinds.iter().enumerate() {
        let next = field::at(*kind, rest, at, ROOM - used)?;
        let start = at + 1;
        numbers[i] = next.number;
        marked[i] = next.marked;
        digits::bytes(
            &rest[start..start + next.size * digits::DIGITS],
            &mut bytes[used..used + next.size],
        );
        used += next.size;
        at = start + next.width;
    }
    if at < rest.len() {
        return None;
    }
    Some(Form {
        marked,
        numbers,
        bytes,
    })
}
