// Questions at the boundaries of the section table.
use crate::{BASE, ask, say};
use arch::{PAGE_SIZE, RVA, VA};
use section::{OffsetProbe, Probe, Section};

// Where the words of a section record stand that are asked for here: its first address.
pub const START: u8 = 0;

// The address behind its last.
pub const END: u8 = 1;

const FILE_START: u8 = 2;

const FILE_END: u8 = 3;

const NAME_START: u8 = 5;

const NAME_LENGTH: u8 = 6;

// Word k of section record i.
pub fn word(table: &[u8], i: u16, k: u8) -> u64 {
    words::word(table, limits::SECTION_WORDS, usize::from(i), k)
}

fn before(x: u64) -> u64 {
    x.wrapping_sub(1)
}

fn behind(x: u64, n: u64) -> u64 {
    x.wrapping_add(n)
}

// The bounds of every section's ranges, its name, and two names more.
pub fn all(f: &[u8], table: &[u8], symbols: &[u8], n: u16) {
    let t = ask::sections(table);
    for i in 0..n {
        range(t, symbols, word(table, i, START), word(table, i, END));
        file_range(t, word(table, i, FILE_START), word(table, i, FILE_END));
        own_name(t, f, table, i);
    }
    named(t, f, b"UNDEF");
    named(t, f, b"nosuch");
}

// The bounds of a range, and the page behind it.
fn range(t: [Section; 17], symbols: &[u8], start: u64, end: u64) {
    at(t, symbols, VA(before(start)));
    at(t, symbols, VA(start));
    at(t, symbols, VA(behind(start, 1)));
    at(t, symbols, VA(before(end)));
    at(t, symbols, VA(end));
    at(t, symbols, VA(behind(end, PAGE_SIZE - 1)));
    at(t, symbols, VA(behind(end, PAGE_SIZE)));
}

fn file_range(t: [Section; 17], start: u64, end: u64) {
    byte(t, before(start));
    byte(t, start);
    byte(t, before(end));
    byte(t, end);
}

// An address, and the offset that it is from the base; below the base it is none.
fn at(t: [Section; 17], symbols: &[u8], va: VA) {
    address(t, symbols, va);
    if BASE <= va.0 {
        offset(t, RVA(va.0 - BASE));
    }
}

// An address: its file offset, its section, whether it is in the image, probes for 0, 1, 2, 4 and 7, and its routine.
fn address(t: [Section; 17], symbols: &[u8], va: VA) {
    cases::address(b"at ", va.0);
    say::number(ask::file_offset(t, va));
    say::number(ask::section_of(t, va));
    say::yes(ask::is_in_image(t, va));
    probe(t, va, 0);
    probe(t, va, 1);
    probe(t, va, 2);
    probe(t, va, 4);
    probe(t, va, 7);
    say::routine(ask::routine(t, symbols, va));
    say::end();
}

fn probe(t: [Section; 17], va: VA, permissions: u64) {
    say::yes(ask::probe_va(t, Probe { va, permissions }));
}

// An offset from the base: the same probes.
fn offset(t: [Section; 17], rva: RVA) {
    cases::address(b"offset ", rva.0);
    probe_offset(t, rva, 0);
    probe_offset(t, rva, 1);
    probe_offset(t, rva, 2);
    probe_offset(t, rva, 4);
    probe_offset(t, rva, 7);
    say::end();
}

fn probe_offset(t: [Section; 17], rva: RVA, permissions: u64) {
    let q = OffsetProbe {
        base: VA(BASE),
        rva,
        permissions,
    };
    say::yes(ask::probe_rva(t, q));
}

// A place in the file: its address and its section.
fn byte(t: [Section; 17], offset: u64) {
    cases::part(b"byte ", offset);
    say::address(ask::virtual_address(t, offset));
    say::number(ask::section_of_offset(t, offset));
    say::end();
}

// UNDEF has no name in the file, and an empty name is none to ask for: the records behind the table have it.
fn own_name(t: [Section; 17], f: &[u8], table: &[u8], i: u16) {
    let length = word(table, i, NAME_LENGTH);
    if length > 0 {
        named(
            t,
            f,
            le::part(f, word(table, i, NAME_START) as usize, length as usize),
        );
    }
}

fn named(t: [Section; 17], f: &[u8], name: &[u8]) {
    cases::text(b"named");
    say::name(name);
    say::number(ask::section_named(t, f, name));
    say::end();
}
