// The layout of a frame: one table of widths, by which every frame is taken apart and put together.
ghost use Rattle.std.specs.Prelude.{◌≡◌, ◌≤◌, length, drop};
ghost use Rattle.numbers.specs.Table.{parted, joined, Held};
ghost use Rattle.frame.specs.Frame.{frame_length, widths};

// The bytes of a frame.
pub const FRAME_LENGTH: usize = 64;

// How many numbers stand in a frame.
pub const ROWS: usize = 24;

// The rows of the table, each with the place of its number: places in `widths`, and no enum, since they index it.
pub const DA: usize = 0;

pub const SA: usize = 1;

pub const PROTOCOL_TYPE: usize = 7;

pub const FUNCTION: usize = 8;

pub const VERSION: usize = 9;

pub const PRIORITY1: usize = 10;

pub const SOURCE: usize = 11;

pub const VARIANCE: usize = 12;

pub const PRIORITY2: usize = 13;

pub const CLOCK: usize = 14;

pub const HOP: usize = 15;

pub const COUNT: usize = 16;

pub const ZERO: usize = 17;

pub const SECONDS: usize = 18;

pub const FRACTION: usize = 19;

pub const LOCAL: usize = 20;

pub const TX: usize = 21;

pub const RX: usize = 22;

pub const ERROR: usize = 23;

// The width of each row in bytes.
const WIDTHS: [usize; ROWS] = [
    6, 1, 1, 1, 1, 1, 1, 2, 1, 1, 1, 1, 2, 1, 8, 1, 1, 1, 5, 5, 6, 6, 6, 4,
];

// The numbers that stand in a frame, row by row.
pub fn parts(frame: &[u8]) -> [u64; ROWS]
    requires { length frame.now ≡ frame_length }
    ensures value { result ≡ parted widths 0 frame.now }
    ensures held { Held widths result }
{
    let mut values = [0; ROWS];
    let mut at = 0;
    // tried: values.iter_mut().zip(&WIDTHS), where the invariant has no name for the values that the iterator holds lent.
    for (row, width) in WIDTHS.iter().enumerate() {
        values[row] = numbers_bytes::number_at(frame, at, *width);
        at += *width;
    }
    values
}

// Fills the first 64 bytes with the numbers, row by row.
pub fn fill(values: [u64; ROWS], out: &mut [u8])
    requires { frame_length ≤ length out.old }
    ensures { out.new ≡ joined widths values (drop frame_length out.old) }
{
    let mut at = 0;
    for (value, width) in values.iter().zip(&WIDTHS) {
        numbers_bytes::put_at(out, at, *width, *value);
        at += *width;
    }
}
