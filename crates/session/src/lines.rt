// Whole lines one after the other, each answered by a program.
ghost use Rattle.std.specs.Prelude.{◌≡◌, ◌+◌, ◌≤◌, length, take};
ghost use Rattle.bridge.specs.State.{Lawful};
ghost use Rattle.columns.specs.Columns.{longest_answer};
ghost use Rattle.session.specs.Lines.{kept_bytes, part, line_end, ended, fed_of, kept_text, shown_of, Ends, Within};

use bridge::Bridge;
use columns::LONGEST_ANSWER;
use hexadecimal::search;
use session_programs::Program;

// What ends a line.
pub const NEWLINE: u8 = b'\n';

// What is kept of a line: one byte more than the longest line has, so that the start of a longer one is no line either.
const KEPT: usize = replay_grammar::LONGEST_LINE + 1;

// The state after whole lines, how much of the output is filled then, and where the bytes go on.
// Not one with `Progress`: a turn leaves a session, whole lines a state, and `Turned` and `Within` name the parts of each.
#[derive(Clone, Copy)]
pub struct Lines {
    pub next: Bridge,
    pub filled: usize,
    pub rest: usize,
}

// Keeps more of the line of which `len` bytes are kept, as far as there is room; how many are kept then.
pub fn kept(text: &mut [u8; 516], len: usize, more: &[u8]) -> usize
    requires { (len ≤ kept_bytes) × (length text.old ≡ kept_bytes) }
    ensures value { result ≡ length (kept_text (take len text.old) more.now) }
    ensures text_after { take result text.new ≡ kept_text (take len text.old) more.now }
    ensures text_len { length text.new ≡ kept_bytes }
{
    let n = more.len().min(KEPT - len);
    text[len..len + n].copy_from_slice(&more[..n]);
    len + n
}

// The line that is held, or where nothing is, the one of the bytes.
fn line<'a>(held: &'a [u8], fresh: &'a [u8]) -> &'a [u8]
    ensures { result.now ≡ shown_of held.now fresh.now }
{
    if held.is_empty() { fresh } else { held }
}

// Answers the line that ends in the bytes from `from` on, of which `first` is kept, and those after it as long as the output has room for one more answer.
pub fn whole_lines<'a, P: Program>(
    b: Bridge,
    first: &'a [u8],
    bytes: &'a [u8],
    from: usize,
    out: &mut [u8],
) -> Lines
    requires lawful { Lawful b }
    requires ends { Ends first.now bytes.now from }
    requires longest_answer_in_bounds { longest_answer ≤ length out.old }
    ensures lawful_2 { Lawful result.next }
    ensures rest_value { fed_of P.rules b first.now (part bytes.now (line_end bytes.now from) result.rest) ≡ ended result.next (take result.filled out.new) }
    ensures within { Within (line_end bytes.now from + 1) result.rest result.filled bytes.now out.new }
{
    let mut next = b;
    let mut n: usize = 0;
    let mut held = first.len();
    let mut start = from;
    let mut end = search::found(bytes, start, NEWLINE);
    // No `for`: the loop goes on by where a search finds the next line's end, and stops where the output has no room for one more answer.
    while end < bytes.len() && LONGEST_ANSWER <= out.len() - n {
        let shown = line(&first[..held], &bytes[start..end]);
        if P::asks(shown) {
            n += P::asked(next, shown, &mut out[n..]);
        } else {
            let said = P::answer_line(next, shown, &mut out[n..]);
            next = said.next;
            n += said.len;
        }
        held = 0;
        start = end + 1;
        end = search::found(bytes, start, NEWLINE);
    }
    Lines {
        next,
        filled: n,
        rest: start,
    }
}
