// Survey: counts what a file needs, or says the first refusal that applies. It changes nothing.
#![tactic(auto)]

mod answer;

ghost use Rattle.std.specs.Prelude.{◌≡◌, ◌+◌, ◌^◌, ◌≤◌, replicate};
ghost use Rattle.limits.specs.Limits.{MAX_SECTIONS, MAX_PAGES};
ghost use Rattle.arch.specs.Address.{rva};
ghost use Rattle.layout.specs.Layout.{undef_start, mapped_pages};
ghost use Rattle.homes.specs.Home.{home_in};
ghost use Rattle.targets.specs.Table.{target_in};
ghost use Rattle.bounds.specs.Bounds.{relocation_total};
ghost use Rattle.fixups.specs.Tallying.{AtMost};
ghost use Rattle.survey.specs.Survey.{first_failed, early_checks, target_checks, tally_by, counts_by, survey_of};
ghost use Rattle.survey.specs.Surveying.{behind_pages, targets_answer, planned_by, answer_in, few_records, home_words, code_words, Cleared};

pub use answer::Counts;
use arch::{Arch, RVA};
use fixups::Tally;
use limits::{FEW_SECTIONS, FEW_SYMBOLS, MAX_SECTIONS, MAX_SYMBOLS};
use object::Header;
use refusal::Refusal;

// The first of refusals 1 to 7 that applies.
pub fn check_records(f: &[u8], h: Header) -> Result<(), Refusal>
    ensures { result ≡ first_failed (early_checks f.now h) }
{
    if !bounds::size_ok(f) {
        return Err(Refusal::FileSize);
    }
    if !bounds::machine_ok(h) {
        return Err(Refusal::Machine);
    }
    if !bounds::section_table_ok(f, h) {
        return Err(Refusal::SectionTable);
    }
    if !bounds::symbol_table_ok(f, h) {
        return Err(Refusal::SymbolTable);
    }
    if !bounds::sections_ok(f, h) {
        return Err(Refusal::SectionData);
    }
    if !good_names::names_ok(f, h) {
        return Err(Refusal::Name);
    }
    if !checks::numbers_ok(f, h) {
        return Err(Refusal::SectionNumber);
    }
    Ok(())
}

// By UNDEF's start, which is found once for all that ask for it.
fn tally_by(f: &[u8], h: Header, homes: &[u32], undef: RVA, codes: &[u16]) -> Tally
    ensures value { mapped_pages f.now h ≤ MAX_PAGES → undef ≡ rva (undef_start f.now h) → result ≡ tally_by f.now h (home_in homes.now) (target_in homes.now (undef_start f.now h) codes.now) }
    ensures fixups_value { result.passed + result.skips + result.refused + result.fixups ≡ relocation_total f.now h }
    ensures at_most { AtMost result (2 ^ 48) }
{
    let offset = layout::offset_word(undef);
    let pages = layout::page_word(undef);
    let arch = Arch::by_machine(h.machine);
    fixups::tally_of(arch, f, h, homes, offset, codes, pages)
}

// Each relocation comes to one of four outcomes, so that their numbers add up to all of them.
fn counts_by(f: &[u8], h: Header, homes: &[u32], undef: RVA, n: usize, t: Tally) -> Counts
    requires { (t.passed + t.skips + t.refused + t.fixups ≡ relocation_total f.now h) × AtMost t (2 ^ 48) }
    ensures { undef ≡ rva (undef_start f.now h) → result ≡ counts_by f.now h (home_in homes.now) n t }
{
    let pages = layout::pages_to(undef);
    let records = layout::table_records(f, h) as u64;
    let symbols = homes::listed_total(f, h, homes) as u64;
    let relocations = t.passed + t.skips + t.refused + t.fixups;
    Counts {
        pages,
        sections: records,
        symbols,
        externs: n as u64,
        fixups: t.fixups,
        skips: t.skips,
        passed: t.passed,
        file_sections: h.sections as u64,
        symbol_records: h.symbols as u64,
        relocations,
    }
}

// Refusals 10 and 11.
#[tactic(auto, unfolding(crate::specs::Survey::first_failed, util::specs::Pick::pick))]
fn check_targets(t: Tally) -> Result<(), Refusal>
    ensures { result ≡ first_failed (target_checks t) }
{
    if t.refused != 0 {
        return Err(Refusal::Target);
    }
    if t.outside != 0 {
        return Err(Refusal::Place);
    }
    Ok(())
}

// With n extern names, whose slots are in the codes.
fn survey_targets(
    f: &[u8],
    h: Header,
    homes: &[u32],
    undef: RVA,
    codes: &[u16],
    n: usize,
) -> Result<Counts, Refusal>
    ensures { mapped_pages f.now h ≤ MAX_PAGES → undef ≡ rva (undef_start f.now h) → result ≡ targets_answer f.now h (home_in homes.now) (target_in homes.now (undef_start f.now h) codes.now) n }
{
    let t = tally_by(f, h, homes, undef, codes);
    check_targets(t)?;
    Ok(counts_by(f, h, homes, undef, n, t))
}

// The same for any lists, behind refusal 8, where UNDEF starts there.
pub fn survey_planned(
    f: &[u8],
    h: Header,
    homes: &[u32],
    undef: RVA,
    codes: &[u16],
    n: usize,
) -> Result<Counts, Refusal>
    ensures { undef ≡ rva (undef_start f.now h) → result ≡ planned_by f.now h (home_in homes.now) (target_in homes.now (undef_start f.now h) codes.now) n }
{
    if checks::pages_fit(undef) {
        survey_targets(f, h, homes, undef, codes, n)
    } else {
        Err(Refusal::Pages)
    }
}

// Refusal 9, and what follows.
#[tactic(auto, using(crate::proofs::Laws::extern_ways))]
fn survey_externs(
    f: &[u8],
    h: Header,
    homes: &[u32],
    undef: RVA,
    codes: &mut [u16],
) -> Result<Counts, Refusal>
    requires { (mapped_pages f.now h ≤ MAX_PAGES) × (undef ≡ rva (undef_start f.now h)) }
    ensures { result ≡ answer_in f.now h homes.now codes.old }
{
    let mut slots = [0u32; limits::EXTERN_ROOM];
    let n = externs::collect(f, h, codes, &mut slots).ok_or(Refusal::Externs)?;
    survey_targets(f, h, homes, undef, codes, n)
}

// Refusal 8, by where the sections end; and what follows. Each section's home, and what each symbol record comes to, is found once.
fn survey_with(f: &[u8], h: Header, homes: &mut [u32], codes: &mut [u16]) -> Result<Counts, Refusal>
    requires { (h.sections ≤ MAX_SECTIONS) × Cleared h homes.old codes.old }
    ensures { result ≡ behind_pages f.now h (answer_in f.now h (home_words f.now h) (code_words f.now h)) }
{
    let undef = homes::fill_homes(f, h, homes);
    if checks::pages_fit(undef) {
        codes::fill_codes(f, h, codes);
        survey_externs(f, h, homes, undef, codes)
    } else {
        Err(Refusal::Pages)
    }
}

// Small arrays have room for what is kept of the records.
pub fn few_records(h: Header) -> bool
    ensures { result ≡ few_records h }
{
    h.sections as usize <= FEW_SECTIONS && h.symbols as usize <= FEW_SYMBOLS
}

// In arrays with room for so many sections and symbols.
fn survey_in<const SECTIONS: usize, const SYMBOLS: usize>(
    f: &[u8],
    h: Header,
) -> Result<Counts, Refusal>
    requires few_enough { h.sections ≤ MAX_SECTIONS }
    requires room { Cleared h (replicate SECTIONS 0) (replicate SYMBOLS 0) }
    ensures { result ≡ behind_pages f.now h (answer_in f.now h (home_words f.now h) (code_words f.now h)) }
{
    let mut homes = [0u32; SECTIONS];
    let mut codes = [0u16; SYMBOLS];
    survey_with(f, h, &mut homes, &mut codes)
}

// What follows refusals 1 to 7; of few records in small arrays.
fn survey_records(f: &[u8], h: Header) -> Result<Counts, Refusal>
    requires { h.sections ≤ MAX_SECTIONS }
    ensures { result ≡ behind_pages f.now h (answer_in f.now h (home_words f.now h) (code_words f.now h)) }
{
    if few_records(h) {
        survey_in::<FEW_SECTIONS, FEW_SYMBOLS>(f, h)
    } else {
        survey_in::<MAX_SECTIONS, MAX_SYMBOLS>(f, h)
    }
}

// The counts of a file, or the first refusal that applies.
#[tactic(auto, using(crate::proofs::Laws::whole))]
pub fn survey(f: &[u8]) -> Result<Counts, Refusal>
    ensures { result ≡ survey_of f.now }
{
    let h = object::read_header(f);
    check_records(f, h)?;
    survey_records(f, h)
}
