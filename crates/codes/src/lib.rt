// What each symbol record comes to when a relocation names it, found once and kept in 16 bits.
#![tactic(auto)]

ghost use Rattle.std.specs.Prelude.{◌≡◌, true, false, [], ◌∷◌, ◌≤◌, eqb, length, get_or};
ghost use Rattle.limits.specs.Limits.{MAX_SECTIONS};
ghost use Rattle.util.specs.Pick.{pick};
ghost use Rattle.le.specs.Le.{splice};
ghost use Rattle.names.specs.Name.{span_text, section_text};
ghost use Rattle.object.specs.Section.{loaded};
ghost use Rattle.object.specs.Symbol.{kind_of, place_of};
ghost use Rattle.rules.specs.Rule.{rule_of};
ghost use Rattle.ranks.specs.Rank.{section_ranks};
ghost use Rattle.ranks.specs.Search.{lower_than, Halved};
ghost use Rattle.ranks.specs.Named.{Loaded};
ghost use Rattle.codes.specs.Code.{AUXILIARY, named_code, rule_code, code_by_name, codes_to, is_extern, puts_in};
ghost use Rattle.codes.specs.Draft.{NAMED, undef_named, code_there, drafts_to, some_drafts, final_code, final_codes};

use names::Span;
use object::{Header, Symbol};
use rules::Rule;
use std::cmp::Ordering;

// Numbers and no enum: a code of 16 bits is kept for each of 16,384 records in fixed memory, and those from HOMES on have a number of their own added.
// Codes that stand for one thing; 0 is no record. This one: an auxiliary record, which is refused.
const AUXILIARY: u16 = 1;

// Refusal 10 for its kind and place.
pub const REFUSED: u16 = 2;

// The slot of its name, without putting it among the externs.
pub const SLOT: u16 = 3;

// The same, putting it there.
pub const EXTERN: u16 = 4;

// UNDEF by its name, which an unloaded section has too.
pub const UNDEF_RECORD: u16 = 5;

// UNDEF by its name, putting it among the externs.
pub const UNDEF_EXTERN: u16 = 6;

// A slot that is not there: K3.
pub const NO_SLOT: u16 = 7;

// For the time being: its section is looked for by name.
const NAMED: u16 = 8;

// How many numbers each of the codes below has: a number below this is added to it.
pub const SPAN: u32 = 0x4000;

// The home of the section of that number, from 1.
pub const HOMES: u32 = 0x4000;

// The start of the loaded section at that place of the file, from 0, found by its name.
pub const RECORDS: u32 = 0x8000;

// The slot of that number.
pub const SLOTS: u32 = 0xC000;

// The code of record j, 0 past the records.
pub fn code_at(codes: &[u16], j: u32) -> u16
    ensures { result ≡ get_or codes.now j 0 }
{
    codes.get(j as usize).map_or(0, |c| *c)
}

// Another code for record j.
pub fn put_code(codes: &mut [u16], j: u32, c: u16)
    ensures { codes.new ≡ splice codes.old j (c ∷ []) }
{
    let at = j as usize;
    if at < codes.len() {
        codes[at] = c;
    }
}

// Whether section x's name comes before that one.
#[tactic(auto, using(crate::proofs::Laws::before_is))]
fn is_before(f: &[u8], h: Header, name: Span, x: u16) -> bool
    ensures { result ≡ lower_than (section_text f.now h) (span_text f.now name) x }
{
    order::compare(f, names::section_span(f, h, u32::from(x)), name).is_lt()
}

// Where the names that come before that one end, in the sections' order.
fn first_named(f: &[u8], h: Header, ranks: &[u16], name: Span) -> usize
    requires { ranks.now ≡ section_ranks f.now h }
    ensures { Halved (lower_than (section_text f.now h) (span_text f.now name)) ranks.now result 0 }
{
    ranks.partition_point(|x| is_before(f, h, name, *x))
}

// Of a name that no file section has.
fn code_without(f: &[u8], name: Span) -> u16
    ensures { result ≡ named_code (undef_named (span_text f.now name)) false }
{
    if names::is_undef_at(f, name) {
        UNDEF_EXTERN
    } else {
        EXTERN
    }
}

// Of one that sections have of which none is loaded.
fn code_unloaded(f: &[u8], name: Span) -> u16
    ensures { result ≡ named_code (undef_named (span_text f.now name)) true }
{
    if names::is_undef_at(f, name) {
        UNDEF_RECORD
    } else {
        SLOT
    }
}

// Of one that section i has, which stands first of those that have it.
#[tactic(auto, using(crate::proofs::Laws::name_ways))]
fn code_of(f: &[u8], h: Header, name: Span, i: u16) -> u16
    ensures { result ≡ pick (loaded f.now h i) (named_code (Loaded i) true) (named_code (undef_named (span_text f.now name)) true) }
{
    if object::is_loaded(f, h, u32::from(i)) {
        (u32::from(i) % SPAN + RECORDS) as u16
    } else {
        code_unloaded(f, name)
    }
}

// If section i has it, the code by that section; else no section has it.
#[tactic(auto, using(crate::proofs::Laws::name_ways))]
fn code_there(f: &[u8], h: Header, name: Span, i: u16) -> u16
    ensures { result ≡ code_there f.now h (span_text f.now name) i }
{
    match order::compare(f, names::section_span(f, h, u32::from(i)), name) {
        Ordering::Equal => code_of(f, h, name, i),
        _ => code_without(f, name),
    }
}

// A section by its name: its record, UNDEF's, or the slot.
#[tactic(auto, using(crate::proofs::Laws::by_name))]
fn code_by_name(f: &[u8], h: Header, ranks: &[u16], name: Span) -> u16
    requires { ranks.now ≡ section_ranks f.now h }
    ensures { result ≡ code_by_name f.now h (span_text f.now name) }
{
    match ranks.get(first_named(f, h, ranks, name)) {
        Some(&i) => code_there(f, h, name, i),
        None => code_without(f, name),
    }
}

// By the rule for a symbol's kind and place, but for one whose section is looked for by name.
fn rule_code(rule: Rule) -> u16
    ensures { result ≡ rule_code rule NAMED }
{
    match rule {
        Rule::Section(n) => (n % SPAN + HOMES) as u16,
        Rule::Extern => EXTERN,
        Rule::Slot => SLOT,
        Rule::Name => NAMED,
        Rule::Refused => REFUSED,
    }
}

// Of a record where `left` auxiliary records stand from it on.
fn draft_code(s: Symbol, left: u8) -> u16
    ensures { result ≡ pick (eqb left 0) (rule_code (rule_of (kind_of s) (place_of s)) NAMED) AUXILIARY }
{
    if left == 0 {
        rule_code(rules::rule_of(object::kind_of(s), object::place_of(s)))
    } else {
        AUXILIARY
    }
}

// One pass over the symbol records. The answer: for some of them a section is looked for by name.
#[tactic(auto, using(crate::proofs::Laws::draft_loop))]
fn fill_drafts(f: &[u8], h: Header, codes: &mut [u16]) -> bool
    ensures codes_after { codes.new ≡ splice codes.old 0 (drafts_to f.now h h.symbols) }
    ensures value { result ≡ some_drafts f.now h h.symbols }
{
    let mut named = false;
    let mut left = 0;
    for j in 0..h.symbols {
        let s = object::read_symbol(f, h, j);
        let code = draft_code(s, left);
        named = named || code == NAMED;
        put_code(codes, j, code);
        left = object::left_by(left, s.auxiliaries);
    }
    named
}

// The code of record j, once its section is found.
fn settled_code(f: &[u8], h: Header, ranks: &[u16], c: u16, j: u32) -> u16
    requires { ranks.now ≡ section_ranks f.now h }
    ensures { result ≡ final_code f.now h c j }
{
    if c == NAMED {
        code_by_name(f, h, ranks, names::symbol_span(f, h, j))
    } else {
        c
    }
}

// A second pass, for those whose sections are looked for by name.
#[tactic(auto, using(crate::proofs::Laws::name_loop))]
fn name_codes(f: &[u8], h: Header, ranks: &[u16], codes: &mut [u16])
    requires { ranks.now ≡ section_ranks f.now h }
    ensures { codes.new ≡ splice codes.old 0 (final_codes f.now h codes.old h.symbols) }
{
    for j in 0..h.symbols {
        let code = settled_code(f, h, ranks, code_at(codes, j), j);
        put_code(codes, j, code);
    }
}

// By the order of the sections' names, which is made once.
fn name_ranked(f: &[u8], h: Header, ranks: &mut [u16], codes: &mut [u16])
    requires { (length ranks.old ≡ h.sections) × (h.sections ≤ MAX_SECTIONS) }
    ensures { codes.new ≡ splice codes.old 0 (final_codes f.now h codes.old h.symbols) }
{
    ranks::fill_ranks(f, h, ranks);
    name_codes(f, h, ranks, codes);
}

fn fill_named(f: &[u8], h: Header, codes: &mut [u16])
    ensures { h.sections ≤ MAX_SECTIONS → codes.new ≡ splice codes.old 0 (final_codes f.now h codes.old h.symbols) }
{
    let n = h.sections as usize;
    if n <= limits::MAX_SECTIONS {
        let mut ranks = [0u16; limits::MAX_SECTIONS];
        name_ranked(f, h, &mut ranks[..n], codes);
    }
}

// What all symbol records come to. Few files have a symbol whose section is looked for by name; their sections alone are put in order.
pub fn fill_codes(f: &[u8], h: Header, codes: &mut [u16])
    ensures { h.sections ≤ MAX_SECTIONS → codes.new ≡ splice codes.old 0 (codes_to f.now h h.symbols) }
{
    if fill_drafts(f, h, codes) {
        fill_named(f, h, codes);
    }
}

fn is_extern(c: u16) -> bool
    ensures { result ≡ is_extern c }
{
    matches!(c, EXTERN | UNDEF_EXTERN)
}

// A relocation to symbol j puts its name among the externs.
pub fn puts_in(codes: &[u16], j: u32) -> bool
    ensures { result ≡ puts_in codes.now j }
{
    is_extern(code_at(codes, j))
}
