// Questions to the section table, which lies in storage that the caller lends, one record a section; from module.rs.
#![tactic(auto)]

ghost use Rattle.std.specs.Prelude.{◌≡◌, ◌+◌, ◌*◌, ◌≤◌, ◌^◌};
ghost use Rattle.limits.specs.Records.{SECTION_BYTES};
ghost use Rattle.module.specs.Questions.{
  moved,
  file_offset,
  virtual_address,
  section_of,
  section_of_offset,
  section_named,
  probe_va,
  probe_rva,
  is_backed,
  is_in_image,
  section_at,
  Fills,
};
ghost use Rattle.module.specs.Routine.{table_sections, routine};

use arch::VA;
use limits::{
    SECTION_BYTES, SECTION_END, SECTION_FILE_END, SECTION_FILE_NUMBER, SECTION_FILE_START,
    SECTION_NAME_LENGTH, SECTION_NAME_START, SECTION_PERMISSIONS, SECTION_START, SECTION_WORDS,
};
use nearest::Routine;
use refusal::Refusal;
use section::{OffsetProbe, Probe, Section};

// Record r of the section table that load wrote, its words in their order.
fn section_at(table: &[u8], r: usize) -> Section
    requires { SECTION_BYTES * r + SECTION_BYTES ≤ 2 ^ 64 }
    ensures { result ≡ section_at table.now r }
{
    Section {
        start: VA(words::word(table, SECTION_WORDS, r, SECTION_START)),
        end: VA(words::word(table, SECTION_WORDS, r, SECTION_END)),
        file_start: words::word(table, SECTION_WORDS, r, SECTION_FILE_START),
        file_end: words::word(table, SECTION_WORDS, r, SECTION_FILE_END),
        permissions: words::word(table, SECTION_WORDS, r, SECTION_PERMISSIONS),
        name_start: words::word(table, SECTION_WORDS, r, SECTION_NAME_START),
        name_length: words::word(table, SECTION_WORDS, r, SECTION_NAME_LENGTH),
        number: words::word(table, SECTION_WORDS, r, SECTION_FILE_NUMBER),
    }
}

// The records of the section table that load wrote, as many as it has and as there is room for, and how many these are: fewer than load's
// count of sections where `out` has too little room.
#[tactic(auto, using(crate::proofs::Laws::fill_steps))]
pub fn fill_sections(table: &[u8], out: &mut [Section]) -> usize
    ensures { Fills table.now out.old out.new result }
{
    let n = (table.len() / SECTION_BYTES).min(out.len());
    for i in 0..n {
        out[i] = section_at(table, i);
    }
    n
}

// As far behind `to` as x lies behind `from`.
fn moved(from: u64, to: u64, x: u64) -> u64
    ensures { result ≡ moved from to x }
{
    to.wrapping_add(x.saturating_sub(from))
}

// The place in the file of an address, by the first section whose range holds it, also past that section's raw data.
pub fn file_offset(t: &[Section], va: VA) -> Result<u64, Refusal>
    ensures { result ≡ file_offset t.now va }
{
    t.iter()
        .find(|s| s.holds(va))
        .map(|s| moved(s.start.0, s.file_start, va.0))
        .ok_or(Refusal::NoSection)
}

// The address of a place in the file, by the first section whose file range holds it.
pub fn virtual_address(t: &[Section], offset: u64) -> Result<VA, Refusal>
    ensures { result ≡ virtual_address t.now offset }
{
    t.iter()
        .find(|s| s.file_holds(offset))
        .map(|s| VA(moved(s.file_start, s.start.0, offset)))
        .ok_or(Refusal::NoSection)
}

// The number in the table, from 0, of the first section whose range holds the address.
pub fn section_of(t: &[Section], va: VA) -> Result<u64, Refusal>
    ensures { result ≡ section_of t.now va }
{
    t.iter()
        .position(|s| s.holds(va))
        .map(|i| i as u64)
        .ok_or(Refusal::NoSection)
}

// The number in the table, from 0, of the first section whose file range holds the offset.
pub fn section_of_offset(t: &[Section], offset: u64) -> Result<u64, Refusal>
    ensures { result ≡ section_of_offset t.now offset }
{
    t.iter()
        .position(|s| s.file_holds(offset))
        .map(|i| i as u64)
        .ok_or(Refusal::NoSection)
}

// The number in the table, from 0, of the first section with that name; UNDEF's is `UNDEF`.
pub fn section_named(t: &[Section], file: &[u8], name: &[u8]) -> Result<u64, Refusal>
    ensures { result ≡ section_named t.now file.now name.now }
{
    t.iter()
        .position(|s| s.has_name(file, name))
        .map(|i| i as u64)
        .ok_or(Refusal::NoEntry)
}

// Whether a section whose range holds the address has one of the permissions; with none asked for, no.
pub fn probe_va(t: &[Section], q: Probe) -> bool
    ensures { result ≡ probe_va t.now q }
{
    t.iter().any(|s| s.grants(q))
}

// The same for an offset from the base; past 64 bits, no.
pub fn probe_rva(t: &[Section], q: OffsetProbe) -> bool
    ensures { result ≡ probe_rva t.now q }
{
    t.iter().any(|s| s.grants_offset(q))
}

fn is_backed(t: &[Section], n: Result<u64, Refusal>) -> bool
    ensures { result ≡ is_backed t.now n }
{
    t.iter().any(|s| s.has_byte(n))
}

// Whether the address is backed by the file: a section's file range holds its file offset.
pub fn is_in_image(t: &[Section], va: VA) -> bool
    ensures { result ≡ is_in_image t.now va }
{
    is_backed(t, file_offset(t, va))
}

// The listed symbol that the address belongs to: of those whose home is the section that holds it, the nearest that does not lie above.
// `symbols` is the table that load wrote.
#[tactic(auto, unfolding(crate::specs::Routine::of_holder))]
pub fn routine(t: &[Section], symbols: &[u8], va: VA) -> Result<Routine, Refusal>
    ensures { result ≡ routine t.now symbols.now va }
{
    nearest::nearest(symbols, section_of(t, va)?, va)
}

// The number of the first record of load's section table whose range holds the address.
#[tactic(auto, using(crate::proofs::Laws::record_steps))]
fn section_in(table: &[u8], va: VA) -> Result<u64, Refusal>
    ensures { result ≡ section_of (table_sections table.now) va }
{
    for i in 0..table.len() / SECTION_BYTES {
        if section_at(table, i).holds(va) {
            return Ok(i as u64);
        }
    }
    Err(Refusal::NoSection)
}

// The same question to both tables as load wrote them.
#[tactic(auto, unfolding(crate::specs::Routine::of_holder))]
pub fn routine_in(table: &[u8], symbols: &[u8], va: VA) -> Result<Routine, Refusal>
    ensures { result ≡ routine (table_sections table.now) symbols.now va }
{
    nearest::nearest(symbols, section_in(table, va)?, va)
}
