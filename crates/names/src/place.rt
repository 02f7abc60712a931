// Names in the records and in the string table.
ghost use Rattle.std.specs.Prelude.{◌≡◌, ◌<◌, ◌^◌, Some};
ghost use Rattle.object.specs.Format.{section_header_at};
ghost use Rattle.names.specs.Bytes.{are_same_bytes, UNDEF};
ghost use Rattle.names.specs.Name.{
  long_run,
  short_run,
  symbol_run,
  slash_offset,
  slash_run,
  section_run,
  section_name,
  symbol_name,
  name_bytes,
  name_start,
  name_length,
  is_good,
  no_span,
  slash_span,
  section_span,
  span_text,
  left_from,
  long_span,
  symbol_span,
};

use crate::spelling::{all_digits, decimal, is_undef, run};
use crate::{Name, Span};
use object::Header;

// What a section's name begins with that stands in the string table.
pub const SLASH: u8 = 0x2F;

// The bytes of UNDEF's name, and one more.
const UNDEF_ROOM: usize = 6;

// The part of the string table at `offset`, up to a zero that lies within the table.
#[tactic(auto, using(util::specs::Pick::picks), unfolding(crate::specs::Name::long_run))]
fn long_run(f: &[u8], h: Header, offset: u64) -> Option<Name>
    ensures { result ≡ long_run f.now h offset }
{
    let length = object::string_length(f, h) as usize;
    let from = offset as usize;
    if from < object::LENGTH_SIZE || length <= from {
        return None;
    }
    let at = object::string_table(h) + from;
    let n = run(f, at, length - from);
    if n < length - from {
        Some(Name { at, length: n })
    } else {
        None
    }
}

// In the field itself.
fn short_run(f: &[u8], at: usize) -> Name
    requires { at < 2 ^ 38 }
    ensures { Some result ≡ short_run f.now at }
{
    Name {
        at,
        length: run(f, at, object::NAME_SIZE),
    }
}

#[tactic(auto, using(util::specs::Pick::picks), unfolding(crate::specs::Name::symbol_run))]
fn symbol_run(f: &[u8], h: Header, at: usize) -> Option<Name>
    requires { at < 2 ^ 38 }
    ensures { result ≡ symbol_run f.now h at }
{
    if le::u32_at(f, at) == 0 {
        return long_run(f, h, u64::from(le::u32_at(f, at + object::LONG_OFFSET_AT)));
    }
    if le::byte_at(f, at) == 0 {
        None
    } else {
        Some(short_run(f, at))
    }
}

// A slash and one to seven digits: the offset of the name in the string table.
#[tactic(auto, using(util::specs::Pick::picks, le::specs::Le::part_most), unfolding(crate::specs::Name::slash_offset))]
fn offset_at(f: &[u8], at: usize) -> Option<u64>
    requires { at < 2 ^ 38 }
    ensures { result ≡ slash_offset f.now at }
{
    let n = run(f, at, object::NAME_SIZE);
    if n < 2 {
        return None;
    }
    let digits = le::part(f, at + 1, n - 1);
    if all_digits(digits) {
        Some(decimal(digits))
    } else {
        None
    }
}

// Of section i, whose name begins with a slash.
pub fn slash_offset(f: &[u8], h: Header, i: u32) -> Option<u64>
    ensures { result ≡ slash_offset f.now (section_header_at h i) }
{
    offset_at(f, object::section_header_at(h, i))
}

#[tactic(auto, using(crate::proofs::SlashLaws::slash_is), unfolding(crate::specs::Name::slash_by))]
fn slash_run(f: &[u8], h: Header, at: usize) -> Option<Name>
    requires { at < 2 ^ 38 }
    ensures { result ≡ slash_run f.now h at }
{
    long_run(f, h, offset_at(f, at)?)
}

#[tactic(auto, using(util::specs::Pick::picks), unfolding(crate::specs::Name::section_run))]
fn section_run(f: &[u8], h: Header, at: usize) -> Option<Name>
    requires { at < 2 ^ 38 }
    ensures { result ≡ section_run f.now h at }
{
    if le::byte_at(f, at) == SLASH {
        slash_run(f, h, at)
    } else {
        Some(short_run(f, at))
    }
}

// The name of section i.
#[tactic(auto, using(util::specs::Pick::picks), unfolding(crate::specs::Name::checked))]
pub fn section_name(f: &[u8], h: Header, i: u32) -> Option<Name>
    ensures { result ≡ section_name f.now h i }
{
    section_run(f, h, object::section_header_at(h, i)).filter(|n| chars::good_section_name(le::part(
        f, n.at, n.length,
    )))
}

// The name of symbol j.
#[tactic(auto, using(util::specs::Pick::picks), unfolding(crate::specs::Name::checked))]
pub fn symbol_name(f: &[u8], h: Header, j: u32) -> Option<Name>
    ensures { result ≡ symbol_name f.now h j }
{
    symbol_run(f, h, object::symbol_record_at(h, j)).filter(|n| chars::good_symbol_name(le::part(
        f, n.at, n.length,
    )))
}

// Where a name starts in the file.
pub fn name_start(name: Option<Name>) -> u64
    ensures { result ≡ name_start name }
{
    name.map_or(0, |n| n.at as u64)
}

// How long it is.
pub fn name_length(name: Option<Name>) -> u64
    ensures { result ≡ name_length name }
{
    name.map_or(0, |n| n.length as u64)
}

// The bytes of a name: that part of the file; of a bad one none.
#[tactic(auto, unfolding(crate::specs::Name::name_bytes))]
pub fn name_bytes(f: &[u8], name: Option<Name>) -> &[u8]
    ensures { result.now ≡ name_bytes f.now name }
{
    match name {
        Some(n) => le::part(f, n.at, n.length),
        None => &[],
    }
}

// 6 is not given for it.
pub fn is_good(name: Option<Name>) -> bool
    ensures { result ≡ is_good name }
{
    name.is_some()
}

// What a table of `length` bytes has from `offset` on, behind its length field.
#[tactic(auto, using(util::specs::Pick::picks), unfolding(crate::specs::Name::left_from))]
fn left_from(length: u32, offset: u32) -> usize
    ensures { result ≡ left_from length offset }
{
    let from = offset as usize;
    if from < object::LENGTH_SIZE || length <= offset {
        return 0;
    }
    (length - offset) as usize
}

#[tactic(auto, using(util::specs::Pick::picks), unfolding(crate::specs::Name::long_span))]
fn long_span(f: &[u8], h: Header, offset: u32) -> Span
    ensures { result ≡ long_span f.now h offset }
{
    let most = left_from(object::string_length(f, h), offset);
    Span {
        at: object::string_table(h) + offset as usize,
        most,
    }
}

// Where symbol j's name stands. Compiled into the walk over the extern names, which asks it of each that has an equal key.
#[inline(always)]
#[tactic(auto, using(util::specs::Pick::picks), unfolding(crate::specs::Name::span_at))]
pub fn symbol_span(f: &[u8], h: Header, j: u32) -> Span
    ensures { result ≡ symbol_span f.now h j }
{
    let at = object::symbol_record_at(h, j);
    if le::u32_at(f, at) == 0 {
        long_span(f, h, le::u32_at(f, at + object::LONG_OFFSET_AT))
    } else {
        Span {
            at,
            most: object::NAME_SIZE,
        }
    }
}

// No bytes.
fn no_span() -> Span
    ensures { result ≡ no_span }
{
    Span { at: 0, most: 0 }
}

// By the digits behind a slash.
#[tactic(auto, using(util::specs::Pick::picks), unfolding(crate::specs::Name::slash_span))]
fn slash_span(f: &[u8], h: Header, digits: Option<u64>) -> Span
    ensures { result ≡ slash_span f.now h digits }
{
    match digits {
        Some(o) if o < u64::from(object::string_length(f, h)) => long_span(f, h, o as u32),
        _ => no_span(),
    }
}

// Where section i's name stands.
#[tactic(auto, using(util::specs::Pick::picks), unfolding(crate::specs::Name::section_span_at))]
pub fn section_span(f: &[u8], h: Header, i: u32) -> Span
    ensures { result ≡ section_span f.now h i }
{
    let at = object::section_header_at(h, i);
    if le::byte_at(f, at) == SLASH {
        slash_span(f, h, offset_at(f, at))
    } else {
        Span {
            at,
            most: object::NAME_SIZE,
        }
    }
}

// Of a name that stands there: the first bytes tell whether it is UNDEF.
#[tactic(auto, using(crate::proofs::Laws::undef_is))]
pub fn is_undef_at(f: &[u8], s: Span) -> bool
    ensures { result ≡ are_same_bytes (span_text f.now s) UNDEF }
{
    let most = s.most.min(UNDEF_ROOM);
    is_undef(le::part(f, s.at, run(f, s.at, most)))
}
