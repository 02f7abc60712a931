// Every limit of the loader, and the records of the tables that load writes, word by word; each number named once.
#![tactic(auto)]

// Bytes of a file (refusal 1).
pub const MAX_FILE: usize = 4194304;

// Section records of the file, loaded or not (refusal 3).
pub const MAX_SECTIONS: usize = 1024;

// Symbol records, auxiliary ones too (refusal 4).
pub const MAX_SYMBOLS: usize = 16384;

// Up to so many sections and symbols small arrays keep what they come to: to clear the large ones would be most of the work on a small file.
pub const FEW_SECTIONS: usize = 64;

pub const FEW_SYMBOLS: usize = 512;

// Relocations of all sections together, passed ones too (refusal 5).
pub const MAX_RELOCATIONS: u64 = 32768;

// Mapped pages, with UNDEF's and the zero page behind it (refusal 8).
pub const MAX_PAGES: u64 = 4096;

// Extern names; the slots of so many fill UNDEF's page (refusal 9).
pub const MAX_EXTERNS: usize = 1024;

// Room for one name more than there may be.
pub const EXTERN_ROOM: usize = MAX_EXTERNS + 1;

// The highest base.
pub const MAX_BASE: u64 = 0x7F000000;

// The bytes of an extern slot.
pub const SLOT_SIZE: u64 = 4;

// The bytes of a word of a table.
pub const WORD: usize = 8;

// The words of a record of the section table.
pub const SECTION_WORDS: u8 = 8;

// Those words in bytes.
pub const SECTION_BYTES: usize = WORD * SECTION_WORDS as usize;

// Where each stands, from 0: the first address of its range in the image,
pub const SECTION_START: u8 = 0;

// the address behind it,
pub const SECTION_END: u8 = 1;

// the first offset of its range in the file,
pub const SECTION_FILE_START: u8 = 2;

// the offset behind it,
pub const SECTION_FILE_END: u8 = 3;

// the permissions,
pub const SECTION_PERMISSIONS: u8 = 4;

// where the name starts in the file,
pub const SECTION_NAME_START: u8 = 5;

// how many bytes that has,
pub const SECTION_NAME_LENGTH: u8 = 6;

// and the section's number in the file, from 1; UNDEF's is 0.
pub const SECTION_FILE_NUMBER: u8 = 7;

// The words of a record of the symbol table.
pub const SYMBOL_WORDS: u8 = 6;

// Those words in bytes.
pub const SYMBOL_BYTES: usize = WORD * SYMBOL_WORDS as usize;

// The words of a record of the table of extern names.
pub const EXTERN_WORDS: u8 = 4;

// Those words in bytes.
pub const EXTERN_BYTES: usize = WORD * EXTERN_WORDS as usize;

// Address and name stand alike in both: the symbol's address, or the slot's,
pub const ADDRESS: u8 = 0;

// where the name starts in the file,
pub const NAME_START: u8 = 2;

// and how many bytes that has.
pub const NAME_LENGTH: u8 = 3;

// Of a symbol also its kind,
pub const SYMBOL_KIND: u8 = 1;

// its record's number in the file,
pub const SYMBOL_NUMBER: u8 = 4;

// and its home's record in the section table.
pub const SYMBOL_HOME: u8 = 5;

// Of an extern name the lowest number of a symbol that put it there.
pub const EXTERN_NUMBER: u8 = 1;

// The words of a record of the fix list.
pub const FIXUP_WORDS: u8 = 3;

// Those words in bytes.
pub const FIXUP_BYTES: usize = WORD * FIXUP_WORDS as usize;

// The address to be written at,
pub const FIXUP_PLACE: u8 = 0;

// how many bits are written,
pub const FIXUP_BITS: u8 = 1;

// and the value.
pub const FIXUP_VALUE: u8 = 2;

// The words of a record of the skips.
pub const SKIP_WORDS: u8 = 3;

// Those words in bytes.
pub const SKIP_BYTES: usize = WORD * SKIP_WORDS as usize;

// The section from 1,
pub const SKIP_SECTION: u8 = 0;

// the relocation record from 0,
pub const SKIP_RECORD: u8 = 1;

// and the reason, 1 to 4.
pub const SKIP_REASON: u8 = 2;
