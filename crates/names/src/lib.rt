// Names of sections and symbols, and their order. A name is handed back as that part of the file's bytes.
#![tactic(auto)]

mod place;
mod spelling;

pub use place::{
    SLASH, is_good, is_undef_at, name_bytes, name_length, name_start, section_name, section_span,
    slash_offset, symbol_name, symbol_span,
};
pub use spelling::{compare, is_undef, same};

// Where a good name starts in the file, and how many bytes it has.
#[derive(Clone, Copy, PartialEq, Eq)]
pub struct Name {
    pub at: usize,
    pub length: usize,
}

// Where a symbol's name stands: its first byte, and the most bytes that it may take.
#[derive(Clone, Copy, PartialEq, Eq)]
pub struct Span {
    pub at: usize,
    pub most: usize,
}
