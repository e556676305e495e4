// The kinds of a field, as a row of kinds names them.

// A number below 256; any number; a number, or its mark, D for the default or M for a measured delay; the digit 0 or 1; a number of at most 128, the length of an output; up to 128 bytes, or the mark - for none; just so many bytes.
#[derive(Clone, Copy, Debug, PartialEq, Eq)]
pub enum Kind {
    Byte,
    Number,
    NumberOrDefault,
    DelayOrMeasured,
    Flag,
    Length,
    Bytes,
    Exactly(u8),
}
