// Symbols: what they are and where, by the numbers of a record.
ghost use Rattle.std.specs.Prelude.{◌≡◌};
ghost use Rattle.std.specs.Int.{w16};
ghost use Rattle.std.proofs.Common.{to_z};
ghost use Rattle.kinds.specs.Symbol.{code_or_data, static_kind, kind_by, kind_number, kind_numbered, zero_place, place_by, listed_by};

use crate::{Place, SymbolKind};

// Storage classes.
const CLASS_EXTERNAL: u8 = 2;

const CLASS_STATIC: u8 = 3;

const CLASS_LABEL: u8 = 6;

const CLASS_FILE: u8 = 103;

const CLASS_SECTION: u8 = 104;

const CLASS_WEAK_EXTERNAL: u8 = 105;

#[tactic(auto, unfolding(crate::specs::Symbol::code_or_data, crate::specs::Symbol::is_function, util::specs::Pick::pick))]
fn code_or_data(typ: u16) -> SymbolKind
    ensures { result ≡ code_or_data typ }
{
    if typ / 16 % 4 == 2 {
        SymbolKind::Text
    } else {
        SymbolKind::Data
    }
}

#[tactic(auto, unfolding(crate::specs::Symbol::static_kind, util::specs::Pick::pick))]
fn static_kind(typ: u16, value: u32, auxiliary: u8) -> SymbolKind
    ensures { result ≡ static_kind typ value auxiliary }
{
    if value == 0 && auxiliary != 0 {
        SymbolKind::Section
    } else {
        code_or_data(typ)
    }
}

// What a symbol is, by its class.
#[tactic(auto, unfolding(crate::specs::Symbol::kind_by, util::specs::Pick::pick))]
pub fn kind_by(class: u8, typ: u16, value: u32, auxiliary: u8) -> SymbolKind
    ensures { result ≡ kind_by class typ value auxiliary }
{
    match class {
        CLASS_EXTERNAL | CLASS_WEAK_EXTERNAL => code_or_data(typ),
        CLASS_STATIC => static_kind(typ, value, auxiliary),
        CLASS_SECTION => SymbolKind::Section,
        CLASS_FILE => SymbolKind::File,
        CLASS_LABEL => SymbolKind::Label,
        _ => SymbolKind::Unknown,
    }
}

// The number that the tables have for a kind.
impl From<SymbolKind> for u64 {
    ghost from_gives = { λ k n. n ≡ kind_number k };

    fn from(k: SymbolKind) -> u64 {
        k as u64
    }
}

// The kind that a number of the tables has; a number that is no kind's is unknown.
impl From<u64> for SymbolKind {
    ghost from_gives = { λ n k. k ≡ kind_numbered n };

    #[tactic(auto, unfolding(crate::specs::Symbol::kind_numbered, util::specs::Pick::pick))]
    fn from(n: u64) -> SymbolKind {
        match n {
            1 => SymbolKind::Text,
            2 => SymbolKind::Data,
            3 => SymbolKind::Section,
            4 => SymbolKind::File,
            5 => SymbolKind::Label,
            _ => SymbolKind::Unknown,
        }
    }
}

#[tactic(auto, unfolding(crate::specs::Symbol::zero_place, util::specs::Pick::pick))]
fn zero_place(class: u8, value: u32) -> Place
    ensures { result ≡ zero_place class value }
{
    if class == CLASS_EXTERNAL && value == 0 {
        Place::Undefined
    } else {
        Place::Common
    }
}

// By the section number as it stands in the record: 0xFFFF is -1, 0xFFFE is -2.
#[tactic(auto, using(crate::proofs::Laws::places))]
pub fn place_by(number: u16, class: u8, value: u32) -> Place
    ensures { result ≡ place_by (to_z w16 number) class value }
{
    match number {
        0 => zero_place(class, value),
        1..=0x7FFF => Place::In(u32::from(number)),
        0xFFFF => Place::Absolute,
        0xFFFE if class == CLASS_FILE => Place::Nowhere,
        _ => Place::Other,
    }
}

// The value that a listing adds: of class 2, 3, 6 or 105.
#[tactic(auto, unfolding(crate::specs::Symbol::listed_by, util::specs::Pick::pick))]
pub fn listed_by(class: u8, value: u32) -> u32
    ensures { result ≡ listed_by class value }
{
    match class {
        CLASS_EXTERNAL | CLASS_STATIC | CLASS_LABEL | CLASS_WEAK_EXTERNAL => value,
        _ => 0,
    }
}
