// What the numbers in a COFF object's records mean: kinds and places of symbols, flags of sections, types of relocations. No file is read here.
#![tactic(auto)]

mod flags;
mod symbol_kinds;
mod types;

pub use flags::{CNT_UNINITIALIZED, LNK_NRELOC_OVFL, align_of, loaded_by, permissions_by};
pub use symbol_kinds::{kind_by, listed_by, place_by};
pub use types::{X32_TYPES, X64_TYPES, row_in, type_of, unpack};

// What a symbol is: of a class that is not known, code, data, a section, a source file or a label; each with its number in the tables.
#[derive(Clone, Copy, Debug, PartialEq, Eq)]
pub enum SymbolKind {
    Unknown = 0,
    Text = 1,
    Data = 2,
    Section = 3,
    File = 4,
    Label = 5,
}

// Where a symbol is: in a section, by its number from 1; undefined; common; absolute; nowhere, as a file's name; or a number with no meaning.
#[derive(Clone, Copy, Debug, PartialEq, Eq)]
pub enum Place {
    In(u32),
    Undefined,
    Common,
    Absolute,
    Nowhere,
    Other,
}

// What a type stands for: an address, an offset in the image or the section, a distance from the place; one that is refused; one that is skipped. Each has its
// number in the tables of types.
#[derive(Clone, Copy, Debug, PartialEq, Eq)]
pub enum RelocationKind {
    Absolute = 0,
    ImageOffset = 1,
    SectionOffset = 2,
    Relative = 3,
    NotCarried = 4,
    Unknown = 5,
}

// The addend is in two's complement.
#[derive(Clone, Copy, Debug, PartialEq, Eq)]
pub struct RelocationType {
    pub kind: RelocationKind,
    pub bits: u64,
    pub addend: u64,
}
