// Which symbols are listed, and where.
ghost use Rattle.std.specs.Prelude.{◌≡◌, ◌&&◌, ◌<◌, ◌^◌, eqb, ltb};
ghost use Rattle.util.specs.Pick.{pick};
ghost use Rattle.arch.specs.Address.{rva};
ghost use Rattle.object.specs.Symbol.{place_of};
ghost use Rattle.homes.specs.Home.{by_number, word_record, home_in, record_in, Low};
ghost use Rattle.homes.specs.Listed.{of_place, place_home, is_some, offset_from, listed_total};

use crate::kept::{HALF, home_of_number};
use arch::RVA;
use kinds::Place;
use object::{Header, Symbol};

// Where the home of a place starts.
#[tactic(auto, using(crate::proofs::Laws::places, crate::proofs::Laws::low_none))]
fn place_home(homes: &[u32], p: Place) -> Option<RVA>
    ensures value { result ≡ place_home (home_in homes.now) p }
    ensures low { Low result }
{
    match p {
        Place::In(n) => home_of_number(homes, n),
        _ => None,
    }
}

// The record that a word keeps.
fn word_record(word: u32) -> u32
    ensures { result ≡ word_record word }
{
    (word / HALF).saturating_sub(1)
}

#[tactic(auto, using(crate::proofs::Laws::words))]
fn record_of_number(homes: &[u32], n: u32) -> u32
    ensures { result ≡ by_number (record_in homes.now) 0 n }
{
    n.checked_sub(1)
        .map_or(0, |i| word_record(le::word_at(homes, i as usize)))
}

// The table record of a place's home; 0 outside the sections.
#[tactic(auto, using(crate::proofs::Laws::places))]
pub fn record_of_place(homes: &[u32], p: Place) -> u32
    ensures { result ≡ of_place (record_in homes.now) 0 p }
{
    match p {
        Place::In(n) => record_of_number(homes, n),
        _ => 0,
    }
}

// Whether a section number has a home, by its sixteen bits: from 0x8000 on it is negative.
#[tactic(auto, using(crate::proofs::Laws::listed_ways))]
fn has_home(homes: &[u32], number: u16) -> bool
    ensures { result ≡ is_some (by_number (home_in homes.now) None (pick (ltb number 0x8000) number 0)) }
{
    0 < number && number < 0x8000 && le::word_at(homes, usize::from(number - 1)) != 0
}

// The record s is a listed symbol's, if `left` auxiliary records stand from it on; its number alone says whether it is in a section.
#[tactic(auto, using(crate::proofs::Laws::listed_ways))]
pub fn is_listed(homes: &[u32], left: u8, s: Symbol) -> bool
    ensures { result ≡ (eqb left 0 && is_some (place_home (home_in homes.now) (place_of s))) }
{
    left == 0 && has_home(homes, s.number)
}

#[tactic(auto, unfolding(crate::specs::Listed::offset_from, crate::specs::Home::Low))]
fn offset_from(home: Option<RVA>, value: u32) -> RVA
    requires { Low home }
    ensures value { result ≡ rva (offset_from home value) }
    ensures result_bound { result.0 < 2 ^ 33 }
{
    match home {
        Some(o) => RVA(o.0 + u64::from(value)),
        None => RVA(u64::from(value)),
    }
}

// Where a symbol with that place and listed value is listed.
#[tactic(auto, using(crate::proofs::Laws::offset_is))]
pub fn listed_offset(homes: &[u32], p: Place, value: u32) -> RVA
    ensures value { result ≡ rva (offset_from (place_home (home_in homes.now) p) value) }
    ensures result_bound { result.0 < 2 ^ 33 }
{
    offset_from(place_home(homes, p), value)
}

// How many symbols are listed.
#[tactic(auto, using(crate::proofs::Laws::total_loop))]
pub fn listed_total(f: &[u8], h: Header, homes: &[u32]) -> u32
    ensures { result ≡ listed_total f.now h (home_in homes.now) }
{
    let mut count = 0;
    let mut left = 0;
    for j in 0..h.symbols {
        let s = object::read_symbol(f, h, j);
        if is_listed(homes, left, s) {
            count += 1;
        }
        left = object::left_by(left, s.auxiliaries);
    }
    count
}
