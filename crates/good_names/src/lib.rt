// Refusal 6: every section's name is good, and every symbol's, in time linear in the file: long names are found by the noted stops.
#![tactic(auto)]

ghost use Rattle.std.specs.Prelude.{◌≡◌, true, false, length};
ghost use Rattle.util.specs.Prefix.{all_to};
ghost use Rattle.object.specs.Symbol.{auxiliaries_left, ok_at, all_symbols};
ghost use Rattle.stops.specs.Stops.{BLOCKS, stops_of};
ghost use Rattle.good_names.specs.GoodNames.{section_name_ok, name_ok, names_ok};

use object::Header;

#[tactic(auto, using(crate::proofs::Laws::section_loop))]
fn sections_ok(f: &[u8], h: Header, stops: &[u32]) -> bool
    requires { stops.now ≡ stops_of true f.now h }
    ensures { result ≡ all_to (section_name_ok f.now h) h.sections }
{
    for i in 0..u32::from(h.sections) {
        if !stops::section_ok(f, h, stops, i) {
            return false;
        }
    }
    true
}

// Of a symbol's own record; `left` auxiliary ones stand from j on.
#[tactic(auto, using(crate::proofs::Laws::symbol_ways))]
fn symbol_ok_at(f: &[u8], h: Header, stops: &[u32], left: u8, j: u32) -> bool
    requires { (stops.now ≡ stops_of false f.now h) × (left ≡ auxiliaries_left f.now h j) }
    ensures { result ≡ ok_at name_ok f.now h j }
{
    left != 0 || stops::symbol_ok(f, h, stops, j)
}

#[tactic(auto, using(crate::proofs::Laws::symbol_loop))]
fn symbols_ok(f: &[u8], h: Header, stops: &[u32]) -> bool
    requires { stops.now ≡ stops_of false f.now h }
    ensures { result ≡ all_symbols name_ok f.now h }
{
    let mut left = 0;
    for j in 0..h.symbols {
        if !symbol_ok_at(f, h, stops, left, j) {
            return false;
        }
        left = object::left_after(f, h, j, left);
    }
    true
}

// Of all sections, by their own stops.
fn all_sections_ok(f: &[u8], h: Header, stops: &mut [u32]) -> bool
    requires { length stops.old ≡ BLOCKS }
    ensures { result ≡ all_to (section_name_ok f.now h) h.sections }
{
    let n = stops::fill_stops(f, h, true, stops);
    sections_ok(f, h, le::words(stops, n))
}

// Of all symbols, by theirs.
fn all_symbols_ok(f: &[u8], h: Header, stops: &mut [u32]) -> bool
    requires { length stops.old ≡ BLOCKS }
    ensures { result ≡ all_symbols name_ok f.now h }
{
    let n = stops::fill_stops(f, h, false, stops);
    symbols_ok(f, h, le::words(stops, n))
}

// 6: every section's name is good, and every symbol's.
#[tactic(auto, unfolding(crate::specs::GoodNames::names_ok))]
pub fn names_ok(f: &[u8], h: Header) -> bool
    ensures { result ≡ names_ok f.now h }
{
    let mut stops = [0u32; stops::BLOCKS];
    all_sections_ok(f, h, &mut stops) && all_symbols_ok(f, h, &mut stops)
}
