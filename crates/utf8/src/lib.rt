// Characters of UTF-8, as RFC 3629 has them.
#![tactic(auto)]

ghost use Rattle.std.specs.Prelude.{◌≡◌, get_or};
ghost use Rattle.utf8.specs.Utf8.{holds, TAIL, long_length};
ghost use Rattle.utf8.specs.First.{second_low, second_high, SECOND, two_by, three_by, four_by};

// The least second byte: a lower one would make the character longer than it need be.
#[tactic(auto, unfolding(crate::specs::First::second_low, util::specs::Pick::pick))]
fn second_low(a: u8) -> u8
    ensures { result ≡ second_low a }
{
    match a {
        0xE0 => 0xA0,
        0xF0 => 0x90,
        _ => 0x80,
    }
}

// The greatest: behind ED the surrogates begin, behind F4 what is past U+10FFFF.
#[tactic(auto, unfolding(crate::specs::First::second_high, util::specs::Pick::pick))]
fn second_high(a: u8) -> u8
    ensures { result ≡ second_high a }
{
    match a {
        0xED => 0x9F,
        0xF4 => 0x8F,
        _ => 0xBF,
    }
}

// A byte that no character begins with.
pub fn is_tail(b: u8) -> bool
    ensures { result ≡ holds TAIL b }
{
    matches!(b, 0x80..=0xBF)
}

// Whether b may stand behind a first byte a.
fn is_second(a: u8, b: u8) -> bool
    ensures { result ≡ holds (SECOND a) b }
{
    second_low(a) <= b && b <= second_high(a)
}

// The character of two bytes whose first byte s begins with, by its length; 0 where it is none.
#[tactic(auto, unfolding(crate::specs::First::two_by, util::specs::Pick::pick))]
fn two(s: &[u8]) -> usize
    ensures { result ≡ two_by (get_or s.now 1 0) }
{
    if is_tail(le::byte_at(s, 1)) { 2 } else { 0 }
}

// Of three, if it begins with a.
#[tactic(auto, unfolding(crate::specs::First::three_by, util::specs::Pick::pick))]
fn three(s: &[u8], a: u8) -> usize
    ensures { result ≡ three_by a (get_or s.now 1 0) (get_or s.now 2 0) }
{
    if is_second(a, le::byte_at(s, 1)) && is_tail(le::byte_at(s, 2)) {
        3
    } else {
        0
    }
}

// Of four.
#[tactic(auto, unfolding(crate::specs::First::four_by, util::specs::Pick::pick))]
fn four(s: &[u8], a: u8) -> usize
    ensures { result ≡ four_by a (get_or s.now 1 0) (get_or s.now 2 0) (get_or s.now 3 0) }
{
    if a < 0xF5
        && is_second(a, le::byte_at(s, 1))
        && is_tail(le::byte_at(s, 2))
        && is_tail(le::byte_at(s, 3))
    {
        4
    } else {
        0
    }
}

// How many bytes the character has that s begins with, two to four; 0 where it begins with none of several bytes.
#[tactic(auto, using(crate::specs::FirstLaws::long_told), unfolding(crate::specs::First::long_by, util::specs::Pick::pick))]
pub fn long_char(s: &[u8]) -> usize
    ensures { result ≡ long_length s.now }
{
    let a = le::byte_at(s, 0);
    match a {
        0..=0xC1 => 0,
        0xC2..=0xDF => two(s),
        0xE0..=0xEF => three(s, a),
        _ => four(s, a),
    }
}
