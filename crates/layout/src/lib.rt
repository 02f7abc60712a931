// The layout of the image, from load_coff_sections: where sections start, and where their records stand in the section table.
#![tactic(auto)]

ghost use Rattle.std.specs.Prelude.{◌≡◌, ◌+◌, ◌%◌, ◌^◌, ◌<◌, ◌≤◌};
ghost use Rattle.arch.specs.Address.{rva};
ghost use Rattle.layout.specs.Layout.{pages_to, next_start, start_at, undef_start, record_of, table_records};

use arch::{PAGE_SIZE, RVA};
use object::Header;

// The page boundary behind section i, if it is loaded and starts at `at`. Past 64 bits the answer wraps; no start comes near that.
#[tactic(auto, using(crate::proofs::Laws::next_ways))]
pub fn next_start(f: &[u8], h: Header, i: u32, at: RVA) -> RVA
    ensures result_value { result.0 ≡ next_start f.now h i at.0 % 2 ^ 64 }
    ensures at_bound { next_start f.now h i at.0 ≤ at.0 + 2 ^ 34 }
{
    if object::is_loaded(f, h, i) {
        let end = at.0.wrapping_add(object::range_length(f, h, i));
        RVA(util::align(end, PAGE_SIZE))
    } else {
        at
    }
}

// Where section i starts.
#[tactic(auto, using(crate::proofs::Laws::start_loop))]
pub fn start_at(f: &[u8], h: Header, i: u16) -> RVA
    ensures value { result ≡ rva (start_at f.now h i) }
    ensures result_bound { result.0 < 2 ^ 51 }
{
    let mut at = RVA(0);
    for k in 0..i {
        at = next_start(f, h, u32::from(k), at);
    }
    at
}

// Where UNDEF starts: at the page boundary behind the loaded sections.
pub fn undef_start(f: &[u8], h: Header) -> RVA
    ensures value { result ≡ rva (undef_start f.now h) }
    ensures result_bound { result.0 < 2 ^ 51 }
{
    start_at(f, h, h.sections)
}

// The pages that are mapped, if UNDEF starts there.
pub fn pages_to(undef: RVA) -> u64
    ensures { result ≡ pages_to undef.0 }
{
    undef.0 / PAGE_SIZE + 2
}

// An offset in 32 bits, in which those of an image that is not too large fit.
pub fn offset_word(at: RVA) -> u32
    ensures { result ≡ at.0 % 2 ^ 32 }
{
    (at.0 % 0x1_0000_0000) as u32
}

// The mapped pages in 32 bits.
pub fn page_word(undef: RVA) -> u32
    ensures { result ≡ pages_to undef.0 % 2 ^ 32 }
{
    (pages_to(undef) % 0x1_0000_0000) as u32
}

// The record of section i in the section table: how many loaded sections stand before it.
#[tactic(auto, using(util::specs::Prefix::count_loop))]
pub fn record_of(f: &[u8], h: Header, i: u16) -> u32
    ensures value { result ≡ record_of f.now h i }
    ensures upper_bound { result ≤ i }
{
    let mut count = 0;
    for k in 0..i {
        if object::is_loaded(f, h, u32::from(k)) {
            count += 1;
        }
    }
    count
}

// How many records the section table has, UNDEF's included.
pub fn table_records(f: &[u8], h: Header) -> u32
    ensures { result ≡ table_records f.now h }
{
    record_of(f, h, h.sections) + 1
}
