// Bytes as text.
ghost use Rattle.std.specs.Prelude.{◌≡◌, ◌-◌, ◌≤◌, ◌<◌, length};
ghost use Rattle.names.specs.Bytes.{run, all_digits, decimal, compare_bytes, are_same_bytes, UNDEF};

use std::cmp::Ordering;

// How many of the n bytes from `at` stand before the first zero.
pub(crate) fn run(f: &[u8], at: usize, n: usize) -> usize
    ensures value { result ≡ run f.now at n }
    ensures upper_bound { result ≤ n }
{
    let s = le::part(f, at, n);
    s.iter().position(|&b| b == 0).unwrap_or(s.len())
}

pub(crate) fn all_digits(s: &[u8]) -> bool
    ensures { result ≡ all_digits s.now }
{
    s.iter().all(|b| b.is_ascii_digit())
}

fn digit_of(b: u8) -> u64
    ensures value { result ≡ b - 0x30 }
    ensures upper_bound { result < 256 }
{
    u64::from(b.saturating_sub(b'0'))
}

// The number that at most eight digits say.
#[tactic(auto, using(crate::proofs::Laws::decimal_loop))]
pub(crate) fn decimal(s: &[u8]) -> u64
    requires { length s.now ≤ 8 }
    ensures { result ≡ decimal s.now }
{
    let mut sum: u64 = 0;
    for &b in s {
        sum = 10 * sum + digit_of(b);
    }
    sum
}

// The order of two names: by the first byte that differs; a prefix comes first.
#[tactic(auto, using(crate::proofs::Laws::order_is))]
pub fn compare(a: &[u8], b: &[u8]) -> Ordering
    ensures { result ≡ compare_bytes a.now b.now }
{
    a.cmp(b)
}

// Two names are the same.
#[tactic(auto, using(crate::proofs::Laws::same_is))]
pub fn same(a: &[u8], b: &[u8]) -> bool
    ensures { result ≡ are_same_bytes a.now b.now }
{
    a == b
}

// Whether a name is UNDEF's.
pub fn is_undef(s: &[u8]) -> bool
    ensures { result ≡ are_same_bytes s.now UNDEF }
{
    same(s, b"UNDEF")
}
