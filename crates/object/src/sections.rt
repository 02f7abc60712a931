// Section records; i counts from 0.
ghost use Rattle.std.specs.Prelude.{◌≡◌, ◌^◌, ◌<◌};
ghost use Rattle.object.specs.Format.{address_field, raw_size, raw_pointer, relocation_pointer, relocation_field, flags};
ghost use Rattle.object.specs.Section.{
  loaded,
  uninitialized,
  permissions,
  file_start,
  file_end,
  raw_length,
  range_length,
  extended,
  relocation_records,
  relocation_count,
};

use crate::Header;
use crate::format::{
    ADDRESS_AT, FLAGS_AT, RAW_POINTER_AT, RAW_SIZE_AT, RELOCATION_POINTER_AT, RELOCATIONS_AT,
    SECTION_SIZE, read_record, section_header_at,
};

// What the count field holds where the count does not fit it.
const OVERFLOW_COUNT: u16 = 65535;

// The fields of a record.
#[tactic(auto, using(crate::proofs::Laws::get_part))]
pub fn address_field(f: &[u8], h: Header, i: u32) -> u32
    ensures { result ≡ address_field f.now h i }
{
    read_record(
        f,
        section_header_at(h, i),
        SECTION_SIZE,
        |r| le::u32_at(r, ADDRESS_AT),
    )
}

// The size of its bytes in the file.
#[tactic(auto, using(crate::proofs::Laws::get_part))]
pub fn raw_size(f: &[u8], h: Header, i: u32) -> u32
    ensures { result ≡ raw_size f.now h i }
{
    read_record(
        f,
        section_header_at(h, i),
        SECTION_SIZE,
        |r| le::u32_at(r, RAW_SIZE_AT),
    )
}

// Where they start.
#[tactic(auto, using(crate::proofs::Laws::get_part))]
pub fn raw_pointer(f: &[u8], h: Header, i: u32) -> u32
    ensures { result ≡ raw_pointer f.now h i }
{
    read_record(
        f,
        section_header_at(h, i),
        SECTION_SIZE,
        |r| le::u32_at(r, RAW_POINTER_AT),
    )
}

// Where its relocation records start.
#[tactic(auto, using(crate::proofs::Laws::get_part))]
pub fn relocation_pointer(f: &[u8], h: Header, i: u32) -> u32
    ensures { result ≡ relocation_pointer f.now h i }
{
    read_record(
        f,
        section_header_at(h, i),
        SECTION_SIZE,
        |r| le::u32_at(r, RELOCATION_POINTER_AT),
    )
}

#[tactic(auto, using(crate::proofs::Laws::get_part))]
fn relocation_field(f: &[u8], h: Header, i: u32) -> u16
    ensures { result ≡ relocation_field f.now h i }
{
    read_record(
        f,
        section_header_at(h, i),
        SECTION_SIZE,
        |r| le::u16_at(r, RELOCATIONS_AT),
    )
}

#[tactic(auto, using(crate::proofs::Laws::get_part))]
fn section_flags(f: &[u8], h: Header, i: u32) -> u32
    ensures { result ≡ flags f.now h i }
{
    read_record(
        f,
        section_header_at(h, i),
        SECTION_SIZE,
        |r| le::u32_at(r, FLAGS_AT),
    )
}

// Neither removed nor discardable.
pub fn is_loaded(f: &[u8], h: Header, i: u32) -> bool
    ensures { result ≡ loaded f.now h i }
{
    kinds::loaded_by(section_flags(f, h, i))
}

// It has no bytes in the file.
#[tactic(auto, using(crate::proofs::Laws::uninitialized_is))]
pub fn is_uninitialized(f: &[u8], h: Header, i: u32) -> bool
    ensures { result ≡ uninitialized f.now h i }
{
    section_flags(f, h, i) & kinds::CNT_UNINITIALIZED != 0
}

// Read 1, write 2, execute 4.
pub fn permissions(f: &[u8], h: Header, i: u32) -> u32
    ensures { result ≡ permissions f.now h i }
{
    kinds::permissions_by(section_flags(f, h, i))
}

// Where its bytes start in the file; 0 for an uninitialised section.
#[tactic(auto, unfolding(crate::specs::Section::file_start, util::specs::Pick::pick))]
pub fn file_start(f: &[u8], h: Header, i: u32) -> u32
    ensures { result ≡ file_start f.now h i }
{
    if is_uninitialized(f, h, i) {
        0
    } else {
        raw_pointer(f, h, i)
    }
}

// Where they end.
#[tactic(auto, unfolding(crate::specs::Section::file_end, util::specs::Pick::pick))]
pub fn file_end(f: &[u8], h: Header, i: u32) -> u64
    ensures { result ≡ file_end f.now h i }
{
    if is_uninitialized(f, h, i) {
        0
    } else {
        u64::from(raw_pointer(f, h, i)) + u64::from(raw_size(f, h, i))
    }
}

// How many there are.
#[tactic(auto, unfolding(crate::specs::Section::raw_length, util::specs::Pick::pick))]
pub fn raw_length(f: &[u8], h: Header, i: u32) -> u32
    ensures { result ≡ raw_length f.now h i }
{
    if is_uninitialized(f, h, i) {
        0
    } else {
        raw_size(f, h, i)
    }
}

// How much of the image the section takes: its raw size, rounded up to its alignment.
#[tactic(auto, using(crate::proofs::Laws::range_fits, crate::proofs::Laws::range_small))]
pub fn range_length(f: &[u8], h: Header, i: u32) -> u64
    ensures value { result ≡ range_length f.now h i }
    ensures upper_bound { result < 2 ^ 33 }
{
    let align = kinds::align_of(section_flags(f, h, i) / 0x100000 % 16);
    util::align(u64::from(raw_size(f, h, i)), u64::from(align))
}

// The first relocation record holds the real count.
#[tactic(auto, using(crate::proofs::Laws::overflow_ways), unfolding(crate::specs::Section::extended))]
pub fn is_extended(f: &[u8], h: Header, i: u32) -> bool
    ensures { result ≡ extended f.now h i }
{
    section_flags(f, h, i) & kinds::LNK_NRELOC_OVFL != 0
        && relocation_field(f, h, i) == OVERFLOW_COUNT
}

// How many records stand at the relocation pointer, the one with the count included.
#[tactic(auto, unfolding(crate::specs::Section::relocation_records, util::specs::Pick::pick))]
pub fn relocation_records(f: &[u8], h: Header, i: u32) -> u32
    ensures { result ≡ relocation_records f.now h i }
{
    if is_extended(f, h, i) {
        le::u32_at(f, relocation_pointer(f, h, i) as usize)
    } else {
        u32::from(relocation_field(f, h, i))
    }
}

// How many relocations the section has.
#[tactic(auto, unfolding(crate::specs::Section::relocation_count, crate::specs::Section::relocation_records, util::specs::Pick::pick))]
pub fn relocation_count(f: &[u8], h: Header, i: u32) -> u32
    ensures { result ≡ relocation_count f.now h i }
{
    if is_extended(f, h, i) {
        le::u32_at(f, relocation_pointer(f, h, i) as usize).saturating_sub(1)
    } else {
        u32::from(relocation_field(f, h, i))
    }
}
