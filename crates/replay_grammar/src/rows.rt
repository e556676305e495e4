// The kinds of the fields that follow each letter. A letter is the line's own byte: a type of letters would be a second list of them, with a bad one in it.
ghost use Rattle.std.specs.Prelude.{◌≡◌};
ghost use Rattle.replay_grammar.specs.Row.{plain_row, row_of};

use forms::kind::Kind;
use forms::kind::Kind::{
    Byte, Bytes, DelayOrMeasured, Exactly, Flag, Length, Number, NumberOrDefault,
};

// Just the bytes of an address, of a precedence, of an errorTime, of leap seconds, of a version for each port.
const ADDRESS: Kind = Exactly(6);

const PRECEDENCE: Kind = Exactly(13);

const ERROR: Kind = Exactly(4);

const LEAP: Kind = Exactly(2);

const VERSIONS: Kind = Exactly(8);

// A number or the default, a delay or that it is measured.
const OR_DEFAULT: Kind = NumberOrDefault;

const DELAY: Kind = DelayOrMeasured;

// The row of S and P.
const SETUP: [Kind; 14] = [
    Byte, ADDRESS, PRECEDENCE, Flag, OR_DEFAULT, OR_DEFAULT, DELAY, DELAY, DELAY, DELAY, DELAY,
    DELAY, DELAY, DELAY,
];

// The row of V, which says every part of a setup: also whether it is a listener's, and the versions.
const WHOLE_SETUP: [Kind; 16] = [
    Flag, Byte, ADDRESS, PRECEDENCE, Flag, OR_DEFAULT, OR_DEFAULT, DELAY, DELAY, DELAY, DELAY,
    DELAY, DELAY, DELAY, DELAY, VERSIONS,
];

// The row of a plain line's letter; nothing follows C, nor a letter that no call has.
#[tactic(auto, unfolding(crate::specs::Row::plain_row))]
fn plain_row(letter: u8) -> &'static [Kind]
    ensures { result.now ≡ plain_row letter }
{
    match letter {
        b'F' => &[Bytes],
        b'W' => &[
            ADDRESS, PRECEDENCE, Byte, Byte, Number, Number, Number, Number, Number, ERROR, Byte,
            Length,
        ],
        b'B' => &[Bytes, Bytes],
        b'H' => &[Byte],
        b'X' | b'I' => &[Number, Number],
        b'G' => &[Number],
        b'U' | b'N' => &[Number, LEAP],
        _ => &[],
    }
}

// The row of a letter: those of calls on a bridge, and then those of plain lines.
#[tactic(auto, unfolding(crate::specs::Row::row_of))]
pub fn row(letter: u8) -> &'static [Kind]
    ensures { result.now ≡ row_of letter }
{
    match letter {
        b'S' | b'P' => &SETUP,
        b'V' => &WHOLE_SETUP,
        b'L' | b'D' | b'K' => &[Byte],
        b'O' => &[Byte, Number, Number, Number],
        b'R' => &[Byte, Number, Bytes],
        b'A' | b'E' => &[Number],
        b'T' => &[Byte, Number, Length],
        _ => plain_row(letter),
    }
}
