// Refusals 7 and 8: section numbers and mapped pages; and 12, the base. A check is called only where those before it passed.
#![tactic(auto)]

ghost use Rattle.std.specs.Prelude.{◌≡◌, leb};
ghost use Rattle.limits.specs.Limits.{MAX_PAGES};
ghost use Rattle.layout.specs.Layout.{pages_to};
ghost use Rattle.object.specs.Symbol.{symbol_of, place_of, auxiliaries_left, ok_at};
ghost use Rattle.checks.specs.Checks.{base_ok, number_ok, numbers_ok, place_within};

use arch::{RVA, VA};
use object::{Header, Symbol};

// 12: the base is a page multiple and not too high.
#[tactic(auto, unfolding(crate::specs::Checks::base_ok))]
pub fn base_ok(base: VA) -> bool
    ensures { result ≡ base_ok base.0 }
{
    base.is_page_aligned() && base.0 <= limits::MAX_BASE
}

// By the number's sixteen bits: from 0x8000 on it is negative, and no section's.
#[tactic(auto, using(crate::proofs::Laws::within_ways))]
fn number_ok(h: Header, s: Symbol) -> bool
    ensures { result ≡ place_within h.sections (place_of s) }
{
    0x8000 <= s.number || s.number <= h.sections
}

// Of record j, which is s; `left` auxiliary ones stand from it on.
#[tactic(auto, using(crate::proofs::Laws::own_number))]
fn number_ok_at(f: &[u8], h: Header, s: Symbol, left: u8, j: u32) -> bool
    requires { (left ≡ auxiliaries_left f.now h j) × (s ≡ symbol_of f.now h j) }
    ensures { result ≡ ok_at number_ok f.now h j }
{
    left != 0 || number_ok(h, s)
}

// 7: no symbol's section number is above the count.
#[tactic(auto, using(crate::proofs::Laws::number_loop))]
pub fn numbers_ok(f: &[u8], h: Header) -> bool
    ensures { result ≡ numbers_ok f.now h }
{
    let mut left = 0;
    for j in 0..h.symbols {
        let s = object::read_symbol(f, h, j);
        if !number_ok_at(f, h, s, left, j) {
            return false;
        }
        left = object::left_by(left, s.auxiliaries);
    }
    true
}

// 8: not too many pages are mapped, if UNDEF starts there.
pub fn pages_fit(undef: RVA) -> bool
    ensures { result ≡ leb (pages_to undef.0) MAX_PAGES }
{
    layout::pages_to(undef) <= limits::MAX_PAGES
}
