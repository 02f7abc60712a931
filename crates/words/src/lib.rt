// Records of whole words, eight bytes each, the low byte first. A word that would begin past the end is left out.
#![tactic(auto)]

ghost use Rattle.std.specs.Prelude.{◌≡◌, ◌+◌, ◌-◌, ◌*◌, ◌/◌, ◌<◌, ◌≤◌, min, leb, length};
ghost use Rattle.limits.specs.Records.{WORD};
ghost use Rattle.le.specs.Le.{le, splice};
ghost use Rattle.words.specs.Words.{word_bytes, word_of};

use limits::WORD;

// How many of `n` words from `at` on begin within `len` bytes.
fn room(len: usize, at: usize, n: usize) -> usize
    ensures { result ≡ min n ((len - at + (WORD - 1)) / WORD) }
{
    n.min(len.saturating_sub(at).div_ceil(WORD))
}

// The words of `ws` from `at` on, as far as there is room.
#[tactic(auto, using(crate::proofs::Laws::words_loop))]
fn put_room(b: &mut [u8], at: usize, ws: &[u64])
    ensures { b.new ≡ splice b.old at (word_bytes ws.now) }
{
    for i in 0..room(b.len(), at, ws.len()) {
        le::put_u64(b, at + WORD * i, ws[i]);
    }
}

// The words of `ws` from `at` on, where all of them lie within the bytes.
#[tactic(auto, using(crate::proofs::Laws::inside_loop))]
fn put_inside(b: &mut [u8], at: usize, ws: &[u64])
    requires { at + WORD * length ws.now ≤ length b.old }
    ensures { b.new ≡ splice b.old at (word_bytes ws.now) }
{
    for (i, w) in ws.iter().enumerate() {
        let start = at + WORD * i;
        b[start..start + WORD].copy_from_slice(&w.to_le_bytes());
    }
}

// Whether `n` words from `at` on lie within `len` bytes.
fn fits(len: usize, at: usize, n: usize) -> bool
    ensures { result ≡ leb (at + WORD * n) len }
{
    at <= len && n <= (len - at) / WORD
}

// The words of `ws` from `at` on; one test of room serves them all.
pub fn put(b: &mut [u8], at: usize, ws: &[u64])
    ensures { b.new ≡ splice b.old at (word_bytes ws.now) }
{
    if fits(b.len(), at, ws.len()) {
        put_inside(b, at, ws);
    } else {
        put_room(b, at, ws);
    }
}

// Word w of record r, where a record has `width` words; 0 past the end, also where the place has no number of 64 bits.
#[tactic(auto, using(crate::proofs::Laws::word_is))]
pub fn word(table: &[u8], width: u8, r: usize, w: u8) -> u64
    ensures { result ≡ word_of width table.now r w }
{
    let at = usize::from(width)
        .saturating_mul(r)
        .saturating_add(usize::from(w));
    le::u64_at(table, WORD.saturating_mul(at))
}
