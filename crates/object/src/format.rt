// The file header.
ghost use Rattle.std.specs.Prelude.{◌≡◌, ◌+◌, ◌^◌, ◌<◌};
ghost use Rattle.std.specs.Fn.{FnOnceReturnsAt};
ghost use Rattle.le.specs.Le.{part};
ghost use Rattle.object.specs.Format.{SECTION_SIZE, header_of, section_header_at, symbol_record_at, string_table, string_length};

use crate::Header;

// The bytes of the records: the file header, a section, a symbol, a relocation.
pub const HEADER_SIZE: u32 = 20;

pub(crate) const SECTION_SIZE: usize = 40;

pub(crate) const SYMBOL_SIZE: usize = 18;

// An address, a symbol's number and a type.
pub const RELOCATION_SIZE: usize = 10;

// The bytes of a name field, at the start of a section or symbol record.
pub const NAME_SIZE: usize = 8;

// Where the offset of a long name stands in a symbol's name field.
pub const LONG_OFFSET_AT: usize = 4;

// The bytes of the string table's own length, behind which strings stand.
pub const LENGTH_SIZE: usize = 4;

// Where each field stands, in bytes from the start of its record: of the file header,
pub(crate) const MACHINE_AT: usize = 0;

pub(crate) const SECTIONS_AT: usize = 2;

pub(crate) const SYMBOL_POINTER_AT: usize = 8;

pub(crate) const SYMBOLS_AT: usize = 12;

pub(crate) const OPTIONAL_SIZE_AT: usize = 16;

// of a section record,
pub(crate) const ADDRESS_AT: usize = 12;

pub(crate) const RAW_SIZE_AT: usize = 16;

pub(crate) const RAW_POINTER_AT: usize = 20;

pub(crate) const RELOCATION_POINTER_AT: usize = 24;

pub(crate) const RELOCATIONS_AT: usize = 32;

pub(crate) const FLAGS_AT: usize = 36;

// of a symbol record,
pub(crate) const VALUE_AT: usize = 8;

pub(crate) const NUMBER_AT: usize = 12;

pub(crate) const TYPE_AT: usize = 14;

pub(crate) const CLASS_AT: usize = 16;

pub(crate) const AUXILIARIES_AT: usize = 17;

// of a relocation record, whose address stands first.
pub(crate) const RELOCATION_SYMBOL_AT: usize = 4;

pub(crate) const RELOCATION_TYPE_AT: usize = 8;

// The file header.
#[tactic(auto, unfolding(crate::specs::Format::header_of))]
pub fn read_header(f: &[u8]) -> Header
    ensures { result ≡ header_of f.now }
{
    Header {
        machine: le::u16_at(f, MACHINE_AT),
        sections: le::u16_at(f, SECTIONS_AT),
        section_table: HEADER_SIZE + u32::from(le::u16_at(f, OPTIONAL_SIZE_AT)),
        symbol_table: le::u32_at(f, SYMBOL_POINTER_AT),
        symbols: symbol_count(f),
    }
}

// No symbols where the pointer is zero, whatever the count says.
#[tactic(auto, unfolding(crate::specs::Format::header_of, util::specs::Pick::pick))]
fn symbol_count(f: &[u8]) -> u32
    ensures { result ≡ (header_of f.now).symbols }
{
    if le::u32_at(f, SYMBOL_POINTER_AT) == 0 {
        0
    } else {
        le::u32_at(f, SYMBOLS_AT)
    }
}

// What `read` says of the n bytes of the record at a place, as far as the file has them. It is called apart where the file has all: of a part of a known length no field needs a test.
#[tactic(auto, using(crate::proofs::Laws::whole_part))]
pub(crate) fn read_record<T, F: FnOnce(&[u8]) -> T>(f: &[u8], at: usize, n: usize, read: F) -> T
    requires room { at + n < 2 ^ 64 }
    requires reads { F.IsAlwaysCallable read }
    ensures { FnOnceReturnsAt F.FnOnce read (part f.now at n) result }
{
    let to = at + n;
    if to <= f.len() {
        read(&f[at..to])
    } else {
        read(le::part(f, at, n))
    }
}

// Where section record i starts.
pub fn section_header_at(h: Header, i: u32) -> usize
    ensures value { result ≡ section_header_at h i }
    ensures upper_bound { result < 2 ^ 38 }
{
    h.section_table as usize + SECTION_SIZE * (i as usize)
}

// Where symbol record j starts.
pub fn symbol_record_at(h: Header, j: u32) -> usize
    ensures value { result ≡ symbol_record_at h j }
    ensures upper_bound { result < 2 ^ 38 }
{
    h.symbol_table as usize + SYMBOL_SIZE * (j as usize)
}

// Where the string table starts: behind the symbols.
pub fn string_table(h: Header) -> usize
    ensures value { result ≡ string_table h }
    ensures upper_bound { result < 2 ^ 38 }
{
    symbol_record_at(h, h.symbols)
}

// The string table's length, itself included; 0 where there are no symbols.
#[tactic(auto, unfolding(crate::specs::Format::string_length, util::specs::Pick::pick))]
pub fn string_length(f: &[u8], h: Header) -> u32
    ensures { result ≡ string_length f.now h }
{
    if h.symbol_table == 0 {
        0
    } else {
        le::u32_at(f, string_table(h))
    }
}
