// Records, which `object` reads: the header, section i, its relocation r, symbol i.
ghost use Rattle.std.specs.Prelude.{◌≡◌};
ghost use Rattle.kinds.specs.Types.{relocation_kind_number};

use crate::{kinds_said, numbers, symbol_rows};
use kinds::{RelocationKind, RelocationType};
use object::{Header, Records, Relocation};

// The function's place in this list, in whose order the arms below stand.
pub(crate) fn question(line: &[u8]) -> u8 {
    cases::place(
        cases::word(line, 1),
        b"is_loaded is_uninitialized is_extended \
          type_of left_after classes \
          machine sections string_table file_end range_length relocation_start relocation_type \
          symbol_class symbol_kind symbol_place auxiliaries auxiliaries_past \
          section_table symbol_table symbols string_length \
          address_field raw_size raw_pointer relocation_pointer permissions file_start \
          relocation_records relocation_count relocation_address relocation_symbol \
          symbol_value listed_value \
          kind_word place_word type_word ",
    )
}

pub(crate) fn answer(k: u8, f: &[u8], a: u64, b: u64) {
    let h = object::read_header(f);
    let i = index(a);
    let r = index(b);
    match k {
        0 => cases::yes(object::is_loaded(f, h, i)),
        1 => cases::yes(object::is_uninitialized(f, h, i)),
        2 => cases::yes(object::is_extended(f, h, i)),
        3 => asked(kinds::type_of(numbers::of_bits(a), (b % 0x10000) as u16)),
        4 => symbol_rows::maps(f, h),
        5 => symbol_rows::classes(f),
        6..=17 => cases::hex(number(k, f, h, i, r)),
        18..=33 => cases::hex(u64::from(word(k, f, h, i, r))),
        34 => kinds_said::kind(f, h, i),
        35 => kinds_said::place(f, h, i),
        36 => kinds_said::relocation(
            kinds::type_of(numbers::of_bits(a), (b % 0x10000) as u16).kind,
        ),
        _ => {}
    }
}

pub(crate) fn index(a: u64) -> u32 {
    (a % 0x100000000) as u32
}

fn read(f: &[u8], h: Header, i: u32, r: u32) -> Relocation {
    object::read_relocation(f, object::records_of(f, h, i), r)
}

// Where relocation 0 stands.
fn first_at(records: Records) -> u64 {
    records.pointer as u64 + object::RELOCATION_SIZE as u64 * records.first as u64
}

// Those whose type is not of 32 bits.
fn number(k: u8, f: &[u8], h: Header, i: u32, r: u32) -> u64 {
    match k {
        6 => h.machine as u64,
        7 => h.sections as u64,
        8 => object::string_table(h) as u64,
        9 => object::file_end(f, h, i),
        10 => object::range_length(f, h, i),
        11 => first_at(object::records_of(f, h, i)),
        12 => read(f, h, i, r).typ as u64,
        13 => object::read_symbol(f, h, i).class as u64,
        14 => u64::from(object::symbol_kind(f, h, i)),
        15 => symbol_rows::place_number(object::symbol_place(f, h, i)),
        16 => object::auxiliaries(f, h, i) as u64,
        _ => object::auxiliaries_past(f, h) as u64,
    }
}

// Those of 32 bits.
fn word(k: u8, f: &[u8], h: Header, i: u32, r: u32) -> u32 {
    match k {
        18 => h.section_table,
        19 => h.symbol_table,
        20 => h.symbols,
        21 => object::string_length(f, h),
        22 => object::address_field(f, h, i),
        23 => object::raw_size(f, h, i),
        24 => object::raw_pointer(f, h, i),
        25 => object::relocation_pointer(f, h, i),
        26 => object::permissions(f, h, i),
        27 => object::file_start(f, h, i),
        28 => object::relocation_records(f, h, i),
        29 => object::relocation_count(f, h, i),
        30 => read(f, h, i, r).address,
        31 => read(f, h, i, r).symbol,
        32 => object::read_symbol(f, h, i).value,
        _ => object::listed_value(f, h, i),
    }
}

// What a relocation type asks for: the kind, by its number in document 01's order, and in decimal the bits and the addend.
fn asked(t: RelocationType) {
    cases::hex(kind_number(t.kind));
    cases::decimal(t.bits);
    cases::signed(t.addend);
}

fn kind_number(kind: RelocationKind) -> u64
    ensures { result ≡ relocation_kind_number kind }
{
    match kind {
        RelocationKind::Absolute => 0,
        RelocationKind::ImageOffset => 1,
        RelocationKind::SectionOffset => 2,
        RelocationKind::Relative => 3,
        RelocationKind::NotCarried => 4,
        RelocationKind::Unknown => 5,
    }
}
