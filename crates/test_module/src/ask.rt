// The questions to the section table, on a table by value.
ghost use Rattle.std.specs.Prelude.{◌≡◌};
ghost use Rattle.module.specs.Questions.{
  table_filled,
  file_offset,
  virtual_address,
  section_of,
  section_of_offset,
  section_named,
  is_in_image,
  probe_va,
  probe_rva,
};
ghost use Rattle.module.specs.Routine.{routine};

use arch::VA;
use nearest::Routine;
use refusal::Refusal;
use section::{OffsetProbe, Probe, Section};

// A record with no range, no bytes in the file and an empty name.
fn none() -> Section {
    Section {
        start: VA(0),
        end: VA(0),
        file_start: 0,
        file_end: 0,
        permissions: 0,
        name_start: 0,
        name_length: 0,
        number: 1,
    }
}

fn blank() -> [Section; 17] {
    [none(); 17]
}

// The records of the table, and behind them those of `unused`.
fn filled(table: &[u8], unused: [Section; 17]) -> [Section; 17]
    ensures { result ≡ table_filled table.now unused }
{
    let mut t = unused;
    module::fill_sections(table, &mut t);
    t
}

// The records of the table, and behind them blank ones.
pub fn sections(table: &[u8]) -> [Section; 17] {
    filled(table, blank())
}

// The questions, each on the table lent for it: how far into the file an address is.
pub fn file_offset(t: [Section; 17], va: VA) -> Result<u64, Refusal>
    ensures { result ≡ file_offset t va }
{
    module::file_offset(&t, va)
}

// Which section holds an address.
pub fn section_of(t: [Section; 17], va: VA) -> Result<u64, Refusal>
    ensures { result ≡ section_of t va }
{
    module::section_of(&t, va)
}

// Some section's file range holds an address's file offset.
pub fn is_in_image(t: [Section; 17], va: VA) -> bool
    ensures { result ≡ is_in_image t va }
{
    module::is_in_image(&t, va)
}

// Some section grants what is asked of an address.
pub fn probe_va(t: [Section; 17], q: Probe) -> bool
    ensures { result ≡ probe_va t q }
{
    module::probe_va(&t, q)
}

// Some section grants what is asked of an offset from the base.
pub fn probe_rva(t: [Section; 17], q: OffsetProbe) -> bool
    ensures { result ≡ probe_rva t q }
{
    module::probe_rva(&t, q)
}

// Which address a file offset has.
pub fn virtual_address(t: [Section; 17], offset: u64) -> Result<VA, Refusal>
    ensures { result ≡ virtual_address t offset }
{
    module::virtual_address(&t, offset)
}

// Which section has a file offset.
pub fn section_of_offset(t: [Section; 17], offset: u64) -> Result<u64, Refusal>
    ensures { result ≡ section_of_offset t offset }
{
    module::section_of_offset(&t, offset)
}

// Which section has a name.
pub fn section_named(t: [Section; 17], file: &[u8], name: &[u8]) -> Result<u64, Refusal>
    ensures { result ≡ section_named t file.now name.now }
{
    module::section_named(&t, file, name)
}

// Which routine an address is in.
pub fn routine(t: [Section; 17], symbols: &[u8], va: VA) -> Result<Routine, Refusal>
    ensures { result ≡ routine t symbols.now va }
{
    module::routine(&t, symbols, va)
}
