// Little-endian numbers in lent bytes: readers that see 0 past the end, writers that leave out what would lie there.
#![tactic(auto)]

ghost use Rattle.std.specs.Prelude.{◌≡◌, ℕ, ◌+◌, ◌-◌, ◌<◌, min, get_or, replicate, [], ◌∷◌};
ghost use Rattle.le.specs.Le.{get, le, part, splice};

use std::array;

// The byte at a place.
pub fn byte_at(s: &[u8], at: usize) -> u8
    ensures { result ≡ get_or s.now at 0 }
{
    s.get(at).copied().unwrap_or(0)
}

// The `N` bytes from `at` on. Where all of them are there this is one load.
fn bytes_at<const N: usize>(s: &[u8], at: usize) -> [u8; N]
    ensures { (k : ℕ) → k < N → get_or result k 0 ≡ get_or s.now (at + k) 0 }
{
    match s.get(at..) {
        Some(rest) => match rest.first_chunk() {
            Some(bytes) => *bytes,
            None => array::from_fn(|k| byte_at(rest, k)),
        },
        None => [0; N],
    }
}

// The number of two bytes there.
pub fn u16_at(s: &[u8], at: usize) -> u16
    ensures { result ≡ get 2 s.now at }
{
    u16::from_le_bytes(bytes_at(s, at))
}

// Of four bytes.
pub fn u32_at(s: &[u8], at: usize) -> u32
    ensures { result ≡ get 4 s.now at }
{
    u32::from_le_bytes(bytes_at(s, at))
}

// Of eight bytes.
pub fn u64_at(s: &[u8], at: usize) -> u64
    ensures { result ≡ get 8 s.now at }
{
    u64::from_le_bytes(bytes_at(s, at))
}

// The `n` bytes from `from`, as far as there are any: that part of the lent bytes.
#[tactic(auto, using(crate::proofs::Laws::part_is))]
pub fn part(s: &[u8], from: usize, n: usize) -> &[u8]
    ensures { result.now ≡ part s.now from n }
{
    let rest = &s[from.min(s.len())..];
    &rest[..n.min(rest.len())]
}

// How many of `n` bytes from `at` lie within `len`.
pub fn room(len: usize, at: usize, n: usize) -> usize
    ensures { result ≡ min n (len - at) }
{
    n.min(len.saturating_sub(at))
}

// The bytes of `s` from `at` on. A loop of its own: an archive that copied by the library would need `memcpy` from the host.
#[tactic(auto, using(crate::proofs::Laws::putting))]
pub fn copy(b: &mut [u8], at: usize, s: &[u8])
    ensures { b.new ≡ splice b.old at s.now }
{
    for i in 0..room(b.len(), at, s.len()) {
        b[at + i] = s[i];
    }
}

// `n` zeros from `at` on.
#[tactic(auto, using(crate::proofs::Laws::zeros_put))]
pub fn zero(b: &mut [u8], at: usize, n: usize)
    ensures { b.new ≡ splice b.old at (replicate n 0) }
{
    let start = at.min(b.len());
    let n = room(b.len(), start, n);
    b[start..start + n].fill(0);
}

// The `n` low bytes of `v` from `at` on; of more than it has the rest are 0.
pub fn put(b: &mut [u8], at: usize, n: usize, v: u64)
    ensures { b.new ≡ splice b.old at (le n v) }
{
    let mut w = v;
    for i in 0..room(b.len(), at, n) {
        b[at + i] = (w % 256) as u8;
        w /= 256;
    }
}

// The `N` bytes of a number, from `at` on. Where all of them fit this is one store.
fn put_bytes<const N: usize>(b: &mut [u8], at: usize, bytes: [u8; N], v: u64)
    requires { bytes ≡ le N v }
    ensures { b.new ≡ splice b.old at (le N v) }
{
    let start = at.min(b.len());
    if N <= b.len() - start {
        b[start..start + N].copy_from_slice(&bytes);
    } else {
        put(b, at, N, v);
    }
}

// A byte at a place.
#[tactic(auto, using(crate::proofs::Laws::bytes_put))]
pub fn put_u8(b: &mut [u8], at: usize, v: u8)
    ensures { b.new ≡ splice b.old at (v ∷ []) }
{
    if at < b.len() {
        b[at] = v;
    }
}

// The two bytes of a number.
#[tactic(auto, using(crate::proofs::Laws::number_bytes))]
pub fn put_u16(b: &mut [u8], at: usize, v: u16)
    ensures { b.new ≡ splice b.old at (le 2 v) }
{
    put_bytes(b, at, u16::to_le_bytes(v), u64::from(v));
}

// Its four bytes.
#[tactic(auto, using(crate::proofs::Laws::number_bytes))]
pub fn put_u32(b: &mut [u8], at: usize, v: u32)
    ensures { b.new ≡ splice b.old at (le 4 v) }
{
    put_bytes(b, at, u32::to_le_bytes(v), u64::from(v));
}

// Its eight bytes.
#[tactic(auto, using(crate::proofs::Laws::number_bytes))]
pub fn put_u64(b: &mut [u8], at: usize, v: u64)
    ensures { b.new ≡ splice b.old at (le 8 v) }
{
    put_bytes(b, at, u64::to_le_bytes(v), v);
}

// The same for 32-bit words: the one at `at`, 0 past the end; one put there; and the first `n`, as far as there are any.
// Functions of their own, as `splice` and `part` are of numbers: no contract over a type parameter could name them.
pub fn word_at(s: &[u32], at: usize) -> u32
    ensures { result ≡ get_or s.now at 0 }
{
    s.get(at).copied().unwrap_or(0)
}

// An element of a list of words.
#[tactic(auto, using(crate::proofs::Laws::bytes_put))]
pub fn put_word(b: &mut [u32], at: usize, v: u32)
    ensures { b.new ≡ splice b.old at (v ∷ []) }
{
    if at < b.len() {
        b[at] = v;
    }
}

// The first n elements, or all.
#[tactic(auto, using(crate::proofs::Laws::words_are))]
pub fn words(s: &[u32], n: usize) -> &[u32]
    ensures { result.now ≡ part s.now 0 n }
{
    &s[..n.min(s.len())]
}
