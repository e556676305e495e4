// Hexadecimal digits, of either case where they are read.
ghost use Rattle.std.specs.Prelude.{◌≡◌, ◌*◌, ◌%◌, ◌<◌, ◌≤◌, length, if◌then◌else◌, nat_lt};
ghost use Rattle.hexadecimal.specs.Digit.{value_of, all_digits, exactly, worth, byte_of, pairs};
ghost use Rattle.hexadecimal.specs.Print.{capital_of};

// The base, and the first value that is a letter.
pub const BASE: u8 = 16;

const TEN: u8 = 10;

// By a cast, since `From` isn't const.
const WIDE_BASE: u64 = BASE as u64;

// How many digits are letters.
const LETTERS: u8 = 6;

// How many digits a byte has.
pub const DIGITS: usize = 2;

// What stands for the value of a character that is no digit: a number above every digit's and no None, since `value_of` says 16 and `all` takes the greatest of all values.
pub const NO_DIGIT: u8 = 16;

// The value of a digit of either case, or NO_DIGIT.
// By differences and not by a match on ranges: measured, a line of replay with a frame took 10 % more instructions by ranges.
pub fn value(c: u8) -> u8
    ensures { result ≡ value_of c }
{
    let decimal = c.wrapping_sub(b'0');
    if decimal < TEN {
        return decimal;
    }
    let upper = c.wrapping_sub(b'A');
    if upper < LETTERS {
        return upper + TEN;
    }
    let lower = c.wrapping_sub(b'a');
    if lower < LETTERS {
        return lower + TEN;
    }
    NO_DIGIT
}

// The capital digit of a number below 16.
pub fn capital(n: u8) -> u8
    requires { n < 16 }
    ensures { result ≡ capital_of n }
{
    if n < TEN { b'0' + n } else { b'A' + (n - TEN) }
}

// Whether every character is a digit: whether the greatest value is one's.
// No `iter().all(..)`, which branches at each character: the greatest is taken without a branch.
pub fn all(text: &[u8]) -> bool
    ensures { result ≡ all_digits text.now }
{
    let mut greatest = 0;
    for c in text {
        greatest = greatest.max(value(*c));
    }
    greatest < NO_DIGIT
}

// Whether a text is n digits.
pub fn exactly(text: &[u8], n: usize) -> bool
    ensures { result ≡ exactly n text.now }
{
    text.len() == n && all(text)
}

// The number that up to 16 digits make.
pub fn number(text: &[u8]) -> u64
    requires { length text.now ≤ 16 }
    ensures { result ≡ worth 0 text.now }
{
    let mut v = 0;
    for c in text {
        v = v * WIDE_BASE + u64::from(value(*c) % BASE);
    }
    v
}

// The byte that two digits make.
pub fn byte(a: u8, b: u8) -> u8
    ensures { result ≡ byte_of a b }
{
    value(a) % BASE * BASE + value(b) % BASE
}

// Fills out with a byte for each two digits.
// tried: by a zip with `chunks_exact(DIGITS)`; the proof didn't close, since inside that loop what is filled so far has no name.
pub fn bytes(text: &[u8], out: &mut [u8])
    requires { length text.now ≡ length out.old * 2 }
    ensures { out.new ≡ pairs text.now }
{
    for (i, b) in out.iter_mut().enumerate() {
        *b = byte(text[i * DIGITS], text[i * DIGITS + 1]);
    }
}
