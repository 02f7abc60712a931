// What survey answers.
// How much load will need, and the file's own numbers: mapped pages, records of the section table with UNDEF's, listed symbols, extern names,
// fixups, skipped and passed relocations; the file's section records, symbol records and relocations.
#[derive(Clone, Copy, Default, PartialEq, Eq)]
pub struct Counts {
    pub pages: u64,
    pub sections: u64,
    pub symbols: u64,
    pub externs: u64,
    pub fixups: u64,
    pub skips: u64,
    pub passed: u64,
    pub file_sections: u64,
    pub symbol_records: u64,
    pub relocations: u64,
}
