// Refusals 1 to 5: what the records say lies in the file, and there is not too much of it. A check is called only where those before it passed.
#![tactic(auto)]

ghost use Rattle.std.specs.Prelude.{◌≡◌};
ghost use Rattle.util.specs.Prefix.{all_to};
ghost use Rattle.bounds.specs.Bounds.{
  size_ok,
  machine_ok,
  section_table_ok,
  strings_ok,
  symbol_table_ok,
  bytes_ok,
  data_ok,
  relocations_ok,
  section_ok,
  relocation_total,
  sections_ok,
};

use arch::Arch;
use object::Header;

// 1: the file has a header, and is not too large.
#[tactic(auto, unfolding(crate::specs::Bounds::size_ok))]
pub fn size_ok(f: &[u8]) -> bool
    ensures { result ≡ size_ok f.now }
{
    object::HEADER_SIZE as usize <= f.len() && f.len() <= limits::MAX_FILE
}

// 2: one of the two machines.
#[tactic(auto, using(crate::proofs::Laws::machine_is))]
pub fn machine_ok(h: Header) -> bool
    ensures { result ≡ machine_ok h }
{
    Arch::of_machine(h.machine).is_some()
}

// 3: not too many sections, and their table lies in the file.
#[tactic(auto, unfolding(crate::specs::Bounds::section_table_ok))]
pub fn section_table_ok(f: &[u8], h: Header) -> bool
    ensures { result ≡ section_table_ok f.now h }
{
    usize::from(h.sections) <= limits::MAX_SECTIONS
        && object::section_header_at(h, u32::from(h.sections)) <= f.len()
}

// The string table and its length lie in the file, and the length counts itself.
#[tactic(auto, unfolding(crate::specs::Bounds::strings_ok))]
fn strings_ok(f: &[u8], h: Header) -> bool
    ensures { result ≡ strings_ok f.now h }
{
    let at = object::string_table(h);
    let length = object::string_length(f, h) as usize;
    at + object::LENGTH_SIZE <= f.len() && object::LENGTH_SIZE <= length && at + length <= f.len()
}

// 4: not too many symbol records, no auxiliary record past their end, symbols and string table in the file.
#[tactic(auto, unfolding(crate::specs::Bounds::symbol_table_ok))]
pub fn symbol_table_ok(f: &[u8], h: Header) -> bool
    ensures { result ≡ symbol_table_ok f.now h }
{
    h.symbol_table == 0
        || (h.symbols as usize <= limits::MAX_SYMBOLS
            && strings_ok(f, h)
            && object::auxiliaries_past(f, h) == 0)
}

// The bytes of section i, if it is initialised, lie in the file.
#[tactic(auto, unfolding(crate::specs::Bounds::bytes_ok))]
fn bytes_ok(f: &[u8], h: Header, i: u32) -> bool
    ensures { result ≡ bytes_ok f.now h i }
{
    let end = object::raw_pointer(f, h, i) as usize + object::raw_size(f, h, i) as usize;
    object::is_uninitialized(f, h, i) || end <= f.len()
}

// 5: section i's address and bytes.
#[tactic(auto, unfolding(crate::specs::Bounds::data_ok))]
fn data_ok(f: &[u8], h: Header, i: u32) -> bool
    ensures { result ≡ data_ok f.now h i }
{
    !object::is_loaded(f, h, i) || (object::address_field(f, h, i) == 0 && bytes_ok(f, h, i))
}

// Section i's relocations.
#[tactic(auto, unfolding(crate::specs::Bounds::relocations_ok))]
fn relocations_ok(f: &[u8], h: Header, i: u32) -> bool
    ensures { result ≡ relocations_ok f.now h i }
{
    let n = object::relocation_records(f, h, i);
    let end = object::relocation_pointer(f, h, i) as usize + object::RELOCATION_SIZE * (n as usize);
    end <= f.len() && !(object::is_extended(f, h, i) && n == 0)
}

fn section_ok(f: &[u8], h: Header, i: u32) -> bool
    ensures { result ≡ section_ok f.now h i }
{
    data_ok(f, h, i) && relocations_ok(f, h, i)
}

#[tactic(auto, using(util::specs::Prefix::all_loop))]
fn each_section_ok(f: &[u8], h: Header) -> bool
    ensures { result ≡ all_to (section_ok f.now h) h.sections }
{
    for i in 0..u32::from(h.sections) {
        if !section_ok(f, h, i) {
            return false;
        }
    }
    true
}

// How many relocations the file has, passed ones too.
#[tactic(auto, using(util::specs::Prefix::sum_none, util::specs::Prefix::sum_again))]
pub fn relocation_total(f: &[u8], h: Header) -> u64
    ensures { result ≡ relocation_total f.now h }
{
    let mut sum = 0;
    for i in 0..u32::from(h.sections) {
        sum += u64::from(object::relocation_count(f, h, i));
    }
    sum
}

// 5, over all sections.
#[tactic(auto, unfolding(crate::specs::Bounds::sections_ok))]
pub fn sections_ok(f: &[u8], h: Header) -> bool
    ensures { result ≡ sections_ok f.now h }
{
    each_section_ok(f, h) && relocation_total(f, h) <= limits::MAX_RELOCATIONS
}
