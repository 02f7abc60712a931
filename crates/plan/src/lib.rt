// The plan of a load, made before a lent buffer is touched: 12, survey's refusals, 13, or the counts. What it finds stays in the caller's arrays.
#![tactic(auto)]

ghost use Rattle.std.specs.Prelude.{◌≡◌, ◌≤◌, length};
ghost use Rattle.limits.specs.Limits.{MAX_PAGES, EXTERN_ROOM};
ghost use Rattle.arch.specs.Address.{rva};
ghost use Rattle.object.specs.Format.{header_of};
ghost use Rattle.layout.specs.Layout.{undef_start, mapped_pages};
ghost use Rattle.survey.specs.Survey.{first_failed};
ghost use Rattle.plan.specs.Plan.{layout_room, lists_room, room_for, Blank, Plans};
ghost use Rattle.plan.specs.Planning.{first_checks, with_room, PlannedIn};

use arch::{PAGE_SIZE, RVA, VA};
use object::Header;
use refusal::Refusal;
use survey::Counts;

// The bytes of each lent buffer.
#[derive(Clone, Copy)]
pub struct Lengths {
    pub image: usize,
    pub marks: usize,
    pub sections: usize,
    pub symbols: usize,
    pub externs: usize,
    pub fixups: usize,
    pub skips: usize,
}

// The first three buffers have room.
fn layout_room(c: Counts, l: Lengths) -> bool
    ensures { result ≡ layout_room c l }
{
    let words = marks::words_for(c.pages);
    c.pages <= l.image as u64 / PAGE_SIZE
        && words <= l.marks as u64 / marks::WORD_BYTES
        && c.sections <= l.sections as u64 / limits::SECTION_BYTES as u64
}

// The other four have room.
fn lists_room(c: Counts, l: Lengths) -> bool
    ensures { result ≡ lists_room c l }
{
    c.symbols <= l.symbols as u64 / limits::SYMBOL_BYTES as u64
        && c.externs <= l.externs as u64 / limits::EXTERN_BYTES as u64
        && c.fixups <= l.fixups as u64 / limits::FIXUP_BYTES as u64
        && c.skips <= l.skips as u64 / limits::SKIP_BYTES as u64
}

// 13: each lent buffer has room for what is counted.
fn room_ok(c: Counts, l: Lengths) -> bool
    ensures { result ≡ room_for c l }
{
    layout_room(c, l) && lists_room(c, l)
}

// 13 behind survey's refusals.
#[tactic(auto, using(crate::proofs::Laws::room_ways))]
fn with_room(s: Result<Counts, Refusal>, l: Lengths, n: usize) -> Result<(Counts, usize), Refusal>
    ensures { result ≡ with_room s l n }
{
    let c = s?;
    if room_ok(c, l) {
        Ok((c, n))
    } else {
        Err(Refusal::Storage)
    }
}

// From refusal 9 on.
#[tactic(auto, using(crate::proofs::Laws::naming))]
fn plan_names(
    f: &[u8],
    h: Header,
    l: Lengths,
    homes: &[u32],
    undef: RVA,
    codes: &mut [u16],
    slots: &mut [u32; limits::EXTERN_ROOM],
) -> Result<(Counts, usize), Refusal>
    requires { (mapped_pages f.now h ≤ MAX_PAGES) × (undef ≡ rva (undef_start f.now h)) }
    ensures planned_in { PlannedIn f.now h homes.now codes.old l codes.new slots.new result }
    ensures slots_len { length slots.new ≡ EXTERN_ROOM }
{
    let n = externs::collect(f, h, codes, slots).ok_or(Refusal::Externs)?;
    with_room(survey::survey_planned(f, h, homes, undef, codes, n), l, n)
}

// 12, then 1 to 7.
#[tactic(auto, using(crate::proofs::Laws::first))]
fn check_first(f: &[u8], h: Header, base: VA) -> Result<(), Refusal>
    ensures { result ≡ first_failed (first_checks f.now h base.0) }
{
    if checks::base_ok(base) {
        survey::check_records(f, h)
    } else {
        Err(Refusal::Base)
    }
}

// All refusals in their order, or the counts and how many extern names there are; the arrays are the caller's, and what they then hold is told where they
// held zeros. The length is said for a caller, who knows no more of a lent array than this.
pub fn plan_file(
    f: &[u8],
    base: VA,
    l: Lengths,
    homes: &mut [u32],
    codes: &mut [u16],
    slots: &mut [u32; limits::EXTERN_ROOM],
) -> Result<(Counts, usize), Refusal>
    ensures plans { Blank (header_of f.now) homes.old codes.old slots.old
        → Plans f.now (header_of f.now) base.0 l homes.new codes.new slots.new result }
    ensures slots_len { length slots.old ≡ EXTERN_ROOM → length slots.new ≡ EXTERN_ROOM }
{
    let h = object::read_header(f);
    check_first(f, h, base)?;
    let undef = homes::fill_homes(f, h, homes);
    if checks::pages_fit(undef) {
        codes::fill_codes(f, h, codes);
        plan_names(f, h, l, homes, undef, codes, slots)
    } else {
        Err(Refusal::Pages)
    }
}
