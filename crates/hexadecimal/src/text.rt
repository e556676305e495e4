// Bytes as text: two capital digits each.
ghost use Rattle.std.specs.Prelude.{◌≡◌, ◌+◌, ◌*◌, ◌<◌, ◌≤◌, length};
ghost use Rattle.hexadecimal.specs.Print.{text_of, with_byte_of, with_text};

use crate::digits;

// Stores the two digits of a byte from `at` on.
pub fn put_byte(out: &mut [u8], at: usize, b: u8)
    requires { at + 1 < length out.old }
    ensures { out.new ≡ with_byte_of out.old at b }
{
    out[at] = digits::capital(b / digits::BASE);
    out[at + 1] = digits::capital(b % digits::BASE);
}

// Fills out with the digits of the bytes.
// tried: by a zip with `chunks_exact_mut(DIGITS)`; the proof didn't close, since inside that loop what is filled so far has no name.
pub fn put(bytes: &[u8], out: &mut [u8])
    requires { length out.old ≡ length bytes.now * 2 }
    ensures { out.new ≡ text_of bytes.now }
{
    for (i, b) in bytes.iter().enumerate() {
        put_byte(out, i * digits::DIGITS, *b);
    }
}

// Stores the digits of the bytes from `at` on.
pub fn put_at(bytes: &[u8], out: &mut [u8], at: usize)
    requires { at + length bytes.now * 2 ≤ length out.old }
    ensures { out.new ≡ with_text out.old at bytes.now }
{
    put(bytes, &mut out[at..at + bytes.len() * digits::DIGITS]);
}
