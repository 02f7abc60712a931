// Why an operation is refused: each refusal once, with its number.
#![tactic(auto)]

ghost use Rattle.std.specs.Prelude.{◌≡◌};
ghost use Rattle.refusal.specs.Refusal.{refusal_number};

// A refusal; C is told its number.
#[derive(Clone, Copy, PartialEq, Eq)]
pub enum Refusal {
    // Survey: the file is shorter than a header or longer than the limit.
    FileSize = 1,

    // The machine is neither i386 nor x64.
    Machine = 2,

    // Too many sections, or their table does not lie in the file.
    SectionTable = 3,

    // Too many symbol records, an auxiliary record past their end, the symbols or strings not in the file, or a string length under 4.
    SymbolTable = 4,

    // A loaded section has a virtual address or bytes past the file, relocations lie past the file or their extended count is 0, or there are too many.
    SectionData = 5,

    // A section's or symbol's name has a byte or a form that is not allowed, or does not end within the string table.
    Name = 6,

    // A symbol's section number is above the file's count.
    SectionNumber = 7,

    // More mapped pages than MAX_PAGES.
    Pages = 8,

    // More extern names than MAX_EXTERNS.
    Externs = 9,

    // A relocation names an auxiliary record or a symbol whose kind and place have no target, or its type is not carried.
    Target = 10,

    // A fixup has a byte outside the mapped pages.
    Place = 11,

    // Load: the base is no page multiple, or above the highest.
    Base = 12,

    // A lent buffer is too short; of later calls also an image that is no page multiple, or too few marks.
    Storage = 13,

    // Patch: the position is above the list's count.
    Position = 14,

    // Read, write, patch and the page writes: an address, fixup or page that is not mapped or not lent, or a fixup of an unknown width.
    NotMapped = 15,

    // A page write, an empty map or a padded write does not start on a page.
    NotOnAPage = 16,

    // A page write or an empty map is not of whole pages.
    NotWholePages = 17,

    // Write: more than a page of bytes.
    TooLong = 18,

    // Questions to the tables: no section holds the address or the file offset.
    NoSection = 19,

    // No record has that name, address or number.
    NoEntry = 20,

    // No listed symbol of the section that holds the address lies at it or below.
    NoRoutine = 21,

    // Survey, behind 11: a fixup is not wholly inside its own section's raw data.
    RawData = 22,

    // Two fixups share a byte.
    Overlap = 23,
}

impl Refusal {
    // The number that docs/HOST.md has for it.
    pub fn number(self) -> u64
        ensures { result ≡ refusal_number self }
    {
        self as u64
    }
}
