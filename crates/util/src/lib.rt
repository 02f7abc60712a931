// Rounding up, from util.rs, and what every layer shares: two tests as one, a choice by a test, recursion over the numbers below n, the fold over
// relocations.
#![tactic(auto)]

ghost use Rattle.std.specs.Prelude.{◌≡◌, ◌+◌, ◌%◌, ◌^◌, ◌&&◌, ◌||◌, max, nat_le};
ghost use Rattle.util.specs.Align.{round_up};

// `i` rounded up to a multiple of `b`; a `b` of 0 or 1 rounds nothing. Past 64 bits the answer wraps, as the Rust's release build does; no caller comes near that.
#[tactic(auto, using(crate::specs::Align::align_ways))]
pub fn align(i: u64, b: u64) -> u64
    ensures { result ≡ round_up i b % 2 ^ 64 }
{
    if b <= 1 {
        i
    } else {
        i.div_ceil(b).wrapping_mul(b)
    }
}

// Whether `len` places from `at` lie within `m`; the sum has no limit of 64 bits.
pub fn within(at: u64, len: u64, m: u64) -> bool
    ensures { result ≡ nat_le (at + len) m }
{
    at.checked_add(len).is_some_and(|end| end <= m)
}

// The greater of the two.
pub fn most(a: u64, b: u64) -> u64
    ensures { result ≡ max a b }
{
    a.max(b)
}

// Both hold.
pub fn both(a: bool, b: bool) -> bool
    ensures { result ≡ (a && b) }
{
    a && b
}

// One of them holds.
pub fn either(a: bool, b: bool) -> bool
    ensures { result ≡ (a || b) }
{
    a || b
}
