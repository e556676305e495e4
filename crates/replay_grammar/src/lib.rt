// The lines of replay, apart from what their calls do: which letter has which fields, and which lines leave the state as it is.
#![tactic(auto)]

pub mod rows;

ghost use Rattle.std.specs.Prelude.{◌≡◌};
ghost use Rattle.replay_grammar.specs.Line.{may_be_line, form_for, asks};

use forms::Form;

// The longest line that can be one: B with two frames of 128 bytes.
pub const LONGEST_LINE: usize = 515;

// Whether there is a letter, and no more than any line has.
#[tactic(auto, unfolding(crate::specs::Line::may_be_line))]
fn may_be_line(text: &[u8]) -> bool
    ensures { result ≡ may_be_line text.now }
{
    !text.is_empty() && text.len() <= LONGEST_LINE
}

// What the fields of a text say, which are read here for both kinds of a line; nothing where it is no line.
#[tactic(auto, unfolding(crate::specs::Line::form_for), using(crate::proofs::LineLaws::line_some))]
pub fn form(text: &[u8]) -> Option<Form>
    ensures { result ≡ form_for text.now }
{
    if !may_be_line(text) {
        return None;
    }
    forms::read(rows::row(text[0]), &text[1..])
}

// Whether a text leaves the state as it is: none at all, or with the letter of no call that changes it.
#[tactic(auto, unfolding(crate::specs::Line::asks, crate::specs::Line::asks_by))]
pub fn asks(text: &[u8]) -> bool
    ensures { result ≡ asks text.now }
{
    !matches!(
        text.first(),
        Some(b'S' | b'P' | b'V' | b'L' | b'O' | b'R' | b'A' | b'T')
    )
}
