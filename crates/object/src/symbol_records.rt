// Symbol records; j counts from 0, auxiliary records included.
ghost use Rattle.std.specs.Prelude.{◌≡◌, ◌-◌, eqb};
ghost use Rattle.util.specs.Pick.{pick};
ghost use Rattle.object.specs.Format.{auxiliaries};
ghost use Rattle.object.specs.Symbol.{symbol_in, symbol_of, kind_of, place_of, listed_of, kind, symbol_place, listed_value, left_after, auxiliaries_left};

use crate::format::{
    AUXILIARIES_AT, CLASS_AT, NUMBER_AT, SYMBOL_SIZE, TYPE_AT, VALUE_AT, read_record,
    symbol_record_at,
};
use crate::{Header, Symbol};
use kinds::{Place, SymbolKind};

// How many auxiliary records follow it.
pub fn auxiliaries(f: &[u8], h: Header, j: u32) -> u8
    ensures { result ≡ auxiliaries f.now h j }
{
    le::byte_at(f, symbol_record_at(h, j) + AUXILIARIES_AT)
}

// What the bytes of a record say behind its name.
fn fields_of(bytes: &[u8]) -> Symbol
    ensures { result ≡ symbol_in bytes.now 0 }
{
    Symbol {
        value: le::u32_at(bytes, VALUE_AT),
        number: le::u16_at(bytes, NUMBER_AT),
        symbol_type: le::u16_at(bytes, TYPE_AT),
        class: le::byte_at(bytes, CLASS_AT),
        auxiliaries: le::byte_at(bytes, AUXILIARIES_AT),
    }
}

// All of record j behind its name, at once.
#[tactic(auto, using(crate::proofs::Laws::symbol_part))]
pub fn read_symbol(f: &[u8], h: Header, j: u32) -> Symbol
    ensures { result ≡ symbol_of f.now h j }
{
    read_record(f, symbol_record_at(h, j), SYMBOL_SIZE, fields_of)
}

// What a symbol is, by its record.
pub fn kind_of(s: Symbol) -> SymbolKind
    ensures { result ≡ kind_of s }
{
    kinds::kind_by(s.class, s.symbol_type, s.value, s.auxiliaries)
}

// Where it is.
pub fn place_of(s: Symbol) -> Place
    ensures { result ≡ place_of s }
{
    kinds::place_by(s.number, s.class, s.value)
}

// The value that a listing adds to the home's start.
pub fn listed_of(s: Symbol) -> u32
    ensures { result ≡ listed_of s }
{
    kinds::listed_by(s.class, s.value)
}

// What symbol j is.
pub fn symbol_kind(f: &[u8], h: Header, j: u32) -> SymbolKind
    ensures { result ≡ kind f.now h j }
{
    kind_of(read_symbol(f, h, j))
}

// Where it is.
pub fn symbol_place(f: &[u8], h: Header, j: u32) -> Place
    ensures { result ≡ symbol_place f.now h j }
{
    place_of(read_symbol(f, h, j))
}

// Its listed value.
pub fn listed_value(f: &[u8], h: Header, j: u32) -> u32
    ensures { result ≡ listed_value f.now h j }
{
    listed_of(read_symbol(f, h, j))
}

// How many auxiliary records stand behind a record, if `left` do from it on and it says that it has so many.
#[tactic(auto, unfolding(util::specs::Pick::pick))]
pub fn left_by(left: u8, auxiliaries: u8) -> u8
    ensures { result ≡ pick (eqb left 0) auxiliaries (left - 1) }
{
    if left == 0 { auxiliaries } else { left - 1 }
}

// How many auxiliary records stand behind record j, if `left` do from j on.
#[tactic(auto, unfolding(crate::specs::Symbol::left_after, util::specs::Pick::pick))]
pub fn left_after(f: &[u8], h: Header, j: u32, left: u8) -> u8
    ensures { result ≡ left_after f.now h j left }
{
    if left == 0 {
        auxiliaries(f, h, j)
    } else {
        left - 1
    }
}

// How many auxiliary records lie past the table: 0 where every symbol's are in it.
#[tactic(auto, using(crate::specs::SymbolLaws::left_none, crate::specs::SymbolLaws::left_again))]
pub fn auxiliaries_past(f: &[u8], h: Header) -> u8
    ensures { result ≡ auxiliaries_left f.now h h.symbols }
{
    let mut left = 0;
    for j in 0..h.symbols {
        left = left_after(f, h, j, left);
    }
    left
}
