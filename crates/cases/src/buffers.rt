// Buffers that lines prepare, and what a question left of them.
ghost use Rattle.std.specs.Prelude.{◌≤◌};

use crate::say::{bytes, text};
use crate::{bytes_at, crc32, number_at, place, word};

// How much of a buffer of b bytes is lent where a are asked for.
pub fn least(a: u64, b: usize) -> usize
    ensures { result ≤ b }
{
    a.min(b as u64) as usize
}

// A count that a table of a test has room for.
pub fn few(n: u64) -> u16 {
    u16::try_from(n).unwrap_or(u16::MAX)
}

// A line whose word 1 says what is done to a buffer: `fill BYTE` makes all its bytes alike, `put AT BYTES` changes at most 32 of them, and
// `bytes AT N AT N AT N` asks what stands there.
pub fn buffer(line: &[u8], b: &mut [u8]) {
    match place(word(line, 1), b"fill put bytes ") {
        0 => fill(b, number_at(line, 2)),
        1 => put(line, b),
        2 => show(line, b),
        _ => {}
    }
}

fn fill(b: &mut [u8], v: u64) {
    le::copy(b, 0, &[(v % 256) as u8; 65536]);
}

fn put(line: &[u8], b: &mut [u8]) {
    let mut some = [0u8; 32];
    let n = bytes_at(line, 3, &mut some);
    le::copy(b, number_at(line, 2) as usize, le::part(&some, 0, n));
}

fn show(line: &[u8], b: &[u8]) {
    text(b" =");
    window(line, 2, 3, b);
    window(line, 4, 5, b);
    window(line, 6, 7, b);
}

// Nothing where the line has no such words.
fn window(line: &[u8], at: u8, n: u8, b: &[u8]) {
    if !word(line, n).is_empty() {
        bytes(le::part(b, number_at(line, at) as usize, number_at(line, n) as usize));
    }
}

// Whether a buffer is what it was when its CRC-32 was `before`.
pub fn kept(before: u64, b: &[u8]) {
    if crc32(b) == before {
        text(b" kept");
    } else {
        text(b" changed");
    }
}
