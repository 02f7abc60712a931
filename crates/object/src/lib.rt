// The records of a COFF object, read from the standard; the Rust borrows the `object` crate for them.
// A record past the end of the file reads as zeros, so that every reader is total.
#![tactic(auto)]

mod format;
mod relocations;
mod sections;
mod symbol_records;

pub use format::{
    HEADER_SIZE, LENGTH_SIZE, LONG_OFFSET_AT, NAME_SIZE, RELOCATION_SIZE, read_header,
    section_header_at, string_length, string_table, symbol_record_at,
};
pub use relocations::{read_relocation, record_bytes, records_of, symbol_number};
pub use sections::{
    address_field, file_end, file_start, is_extended, is_loaded, is_uninitialized, permissions,
    range_length, raw_length, raw_pointer, raw_size, relocation_count, relocation_pointer,
    relocation_records,
};
pub use symbol_records::{
    auxiliaries, auxiliaries_past, kind_of, left_after, left_by, listed_of, listed_value, place_of,
    read_symbol, symbol_kind, symbol_place,
};

// What the file header says: where the tables are, and how many records they have.
#[derive(Clone, Copy)]
pub struct Header {
    pub machine: u16,
    pub sections: u16,
    pub section_table: u32,
    pub symbol_table: u32,
    pub symbols: u32,
}

// The relocations of a section: where their records stand, which record is relocation 0, and how many there are.
#[derive(Clone, Copy)]
pub struct Records {
    pub pointer: u32,
    pub first: u32,
    pub count: u32,
}

// A relocation record.
#[derive(Clone, Copy)]
pub struct Relocation {
    pub address: u32,
    pub symbol: u32,
    pub typ: u16,
}

// What a symbol record says behind its name.
#[derive(Clone, Copy)]
pub struct Symbol {
    pub value: u32,
    pub number: u16,
    pub symbol_type: u16,
    pub class: u8,
    pub auxiliaries: u8,
}
