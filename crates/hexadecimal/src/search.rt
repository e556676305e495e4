// The search for a byte, the mark: block by block, then byte by byte.
ghost use Rattle.std.specs.Prelude.{◌≡◌, true, if◌then◌else◌};
ghost use Rattle.hexadecimal.specs.Search.{contains, found_at};

// How many bytes are searched at once.
const BLOCK: usize = 32;

// Whether the mark is among the bytes; every byte is looked at, without a branch, so that many are tested at once.
// No `iter().any(..)`, which stops at the first: measured, the search by such blocks takes some 500 instructions less for a frame's 128 digits (docs/DECISIONS.md).
fn has(bytes: &[u8], mark: u8) -> bool
    ensures { result ≡ contains mark bytes.now }
{
    let mut met = false;
    for b in bytes {
        met |= *b == mark;
    }
    met
}

// A place from `from` on with the same first mark: past the blocks that have none.
// tried: to count the blocks by `take_while`; the proof didn't close.
fn past_blocks(bytes: &[u8], from: usize, mark: u8) -> usize
    ensures { found_at mark bytes.now result ≡ found_at mark bytes.now from }
{
    let mut i = from;
    let rest = bytes.get(from..).unwrap_or(&[]);
    for block in rest.chunks_exact(BLOCK) {
        if has(block, mark) {
            return i;
        }
        i += BLOCK;
    }
    i
}

// Where the first mark from `from` on stands, or the bytes end.
// tried: by `position` and `map_or`; the proof didn't close, which walks byte by byte (`found_next`).
pub fn found(bytes: &[u8], from: usize, mark: u8) -> usize
    ensures { result ≡ found_at mark bytes.now from }
{
    let start = past_blocks(bytes, from, mark);
    if bytes.len() <= start {
        return start;
    }
    for (k, b) in bytes[start..].iter().enumerate() {
        if *b == mark {
            return start + k;
        }
    }
    bytes.len()
}
