// The order of symbols' names, compared where they stand: no name is walked for its length alone, most are told apart by a key.
#![tactic(auto)]

ghost use Rattle.std.specs.Prelude.{◌≡◌, ◌+◌, ◌*◌, ◌^◌, ◌<◌, ◌≤◌, length};
ghost use Rattle.names.specs.Bytes.{up_to_zero, compare_bytes};
ghost use Rattle.names.specs.Name.{span_text};
ghost use Rattle.order.specs.Key.{KEY_BYTES, key};
ghost use Rattle.order.specs.Eights.{Clean, Alike, Ahead};

use names::Span;
use std::cmp::Ordering;

// Of each byte the lowest bit, and the highest.
const ONES: u64 = 0x0101010101010101;

const HIGHS: u64 = 0x8080808080808080;

// The bytes of a key.
const KEY_BYTES: usize = 8;

// None of the eight bytes of x is zero. The lowest that is would borrow, and so have its highest bit set.
#[tactic(auto, using(crate::proofs::Laws::cleans))]
fn has_no_zero(x: u64) -> bool
    ensures { Clean x result }
{
    ONES <= x && (x - ONES) & !x & HIGHS == 0
}

// The eight bytes at i are the same in both, and none is zero.
#[tactic(auto, using(crate::proofs::Laws::alikes))]
fn same_eight(a: &[u8], b: &[u8], i: usize) -> bool
    ensures { Alike a.now b.now i result }
{
    let x = le::u64_at(a, i);
    x == le::u64_at(b, i) && has_no_zero(x)
}

// How far both are the same, with no zero, in steps of eight bytes. Parts of one length leave one test of the bounds.
// An index and no `for`: a place of two parts from which both are read as one number, in steps of eight.
#[tactic(auto, using(crate::proofs::Laws::ahead_loop))]
fn same_eights(a: &[u8], b: &[u8]) -> usize
    ensures ahead { Ahead a.now b.now result }
    ensures within { result ≤ length a.now }
{
    let n = a.len().min(b.len());
    let s = &a[..n];
    let t = &b[..n];
    let mut i = 0;
    while 7 < n - i && same_eight(s, t, i) {
        i += 8;
    }
    i
}

// The order of two texts, each up to its first zero or its end.
#[tactic(auto, using(crate::proofs::Laws::text_loop))]
fn compare_texts(a: &[u8], b: &[u8]) -> Ordering
    ensures { result ≡ compare_bytes (up_to_zero a.now) (up_to_zero b.now) }
{
    for i in same_eights(a, b)..a.len() {
        let (x, y) = (a[i], le::byte_at(b, i));
        if x != y {
            return x.cmp(&y);
        }
        if x == 0 {
            return Ordering::Equal;
        }
    }
    0.cmp(&le::byte_at(b, a.len()))
}

// The order of two symbols' names. Names that stand in one place are equal at once.
#[tactic(auto, using(crate::proofs::Laws::span_ways))]
pub fn compare(f: &[u8], a: Span, b: Span) -> Ordering
    ensures { result ≡ compare_bytes (span_text f.now a) (span_text f.now b) }
{
    if a == b {
        return Ordering::Equal;
    }
    compare_texts(le::part(f, a.at, a.most), le::part(f, b.at, b.most))
}

// One byte more below those that `sum` holds.
fn push(sum: u64, b: u8) -> u64
    requires { sum < 2 ^ 56 }
    ensures { result ≡ sum * 256 + b }
{
    sum * 256 + u64::from(b)
}

// The key of a text: behind its end only zeros are read.
#[tactic(auto, using(crate::proofs::Laws::read_loop))]
fn text_key(s: &[u8]) -> u64
    ensures { result ≡ key KEY_BYTES (up_to_zero s.now) }
{
    let mut sum = 0;
    let mut at: usize = 0;
    for i in 0..KEY_BYTES {
        let b = le::byte_at(s, at);
        sum = push(sum, b);
        if b != 0 {
            at += 1;
        }
    }
    sum
}

// The first eight bytes of a name as one number: names are in the order of their keys, and only names with equal keys need be compared.
#[tactic(auto, using(crate::proofs::Laws::key_by))]
pub fn key(f: &[u8], s: Span) -> u64
    ensures { result ≡ key KEY_BYTES (span_text f.now s) }
{
    text_key(le::part(f, s.at, s.most))
}
