// Cases as lines of text: words with one space between them, the numbers decimal or behind `0x`, the bytes as pairs of hexadecimal digits. What the
// test programs share: they read a line, write it again, and behind it the answer.
#![tactic(auto)]

mod buffers;
mod crc;
mod say;

ghost use Rattle.std.specs.Prelude.{◌≤◌};

pub use buffers::{buffer, few, kept, least};
pub use crc::crc32;
pub use say::{
    address, answer, bytes, decimal, end, hex, number, padded, part, refused, signed, text, yes,
};

// The end of the line that starts at `from`.
pub fn line_end(text: &[u8], from: usize) -> usize
    ensures { from ≤ result }
{
    for i in from..text.len() {
        if text[i] == b'\n' {
            return i;
        }
    }
    from.max(text.len())
}

// That line.
pub fn line(text: &[u8], from: usize) -> &[u8] {
    le::part(text, from, line_end(text, from) - from)
}

// Word k of a line, from 0; none where the line ends before it.
pub fn word(line: &[u8], k: u8) -> &[u8] {
    let from = word_start(line, k);
    le::part(line, from, word_end(line, from) - from)
}

fn word_start(line: &[u8], k: u8) -> usize {
    let mut left = k;
    for (i, b) in line.iter().enumerate() {
        if left == 0 {
            return i;
        }
        if *b == b' ' {
            left -= 1;
        }
    }
    line.len()
}

fn word_end(line: &[u8], from: usize) -> usize
    ensures { from ≤ result }
{
    for i in from..line.len() {
        if line[i] == b' ' {
            return i;
        }
    }
    from.max(line.len())
}

// Where a word stands in a list of words with a space behind each; their number where it is none of them.
pub fn place(word: &[u8], words: &[u8]) -> u8 {
    let mut k: u8 = 0;
    let mut same: bool = true;
    let mut j: usize = 0;
    for b in words {
        if *b == b' ' {
            if same && j == word.len() {
                return k;
            }
            k = k.saturating_add(1);
            same = true;
            j = 0;
        } else {
            same = same && le::byte_at(word, j) == *b;
            j += 1;
        }
    }
    k
}

// The number that word k is.
pub fn number_at(line: &[u8], k: u8) -> u64 {
    number_of(word(line, k))
}

fn number_of(s: &[u8]) -> u64 {
    let hex = le::byte_at(s, 1) == b'x';
    s.iter().fold(0, |v, b| longer(v, *b, hex))
}

// The `x` counts as a digit 0 behind a 0.
fn longer(v: u64, b: u8, hex: bool) -> u64 {
    if hex {
        (v % 0x1000000000000000 * 16).wrapping_add(digit(b))
    } else {
        (v % 1844674407370955162 * 10).wrapping_add(digit(b))
    }
}

fn digit(b: u8) -> u64 {
    match b {
        b'0'..=b'9' => u64::from(b - b'0'),
        b'a'..=b'f' => u64::from(b - b'a' + 10),
        b'A'..=b'F' => u64::from(b - b'A' + 10),
        _ => 0,
    }
}

// The bytes that word k is, to the front of `out`; how many there are, also where `out` is shorter.
pub fn bytes_at(line: &[u8], k: u8, out: &mut [u8]) -> usize {
    bytes_of(word(line, k), out)
}

fn bytes_of(s: &[u8], out: &mut [u8]) -> usize {
    let n = s.len() / 2;
    for i in 0..n {
        le::put_u8(
            out,
            i,
            pair(le::byte_at(s, 2 * i), le::byte_at(s, 2 * i + 1)),
        );
    }
    n
}

fn pair(high: u8, low: u8) -> u8 {
    (digit(high) % 16 * 16 + digit(low) % 16) as u8
}
