// Names, which `names` finds in the file, and two names that are the file, one behind the other.
use crate::records;
use names::Name;
use object::Header;
use std::cmp::Ordering;

// The function's place in this list, in whose order the arms below stand.
pub(crate) fn question(line: &[u8]) -> u8 {
    cases::place(
        cases::word(line, 1),
        b"section_name symbol_name \
          compare same is_undef ",
    )
}

pub(crate) fn answer(k: u8, f: &[u8], a: u64, b: u64) {
    match k {
        0 | 1 => name(f, found(k, f, object::read_header(f), records::index(a))),
        _ => pair(
            k,
            le::part(f, 0, a as usize),
            le::part(f, a as usize, b as usize),
        ),
    }
}

fn found(k: u8, f: &[u8], h: Header, i: u32) -> Option<Name> {
    match k {
        0 => names::section_name(f, h, i),
        _ => names::symbol_name(f, h, i),
    }
}

// Whether it is good, where it is, how long, and its bytes.
fn name(f: &[u8], name: Option<Name>) {
    cases::yes(names::is_good(name));
    if let Some(n) = name {
        cases::hex(n.at as u64);
        cases::hex(n.length as u64);
    }
    cases::bytes(names::name_bytes(f, name));
}

fn pair(k: u8, a: &[u8], b: &[u8]) {
    match k {
        2 => order(names::compare(a, b)),
        3 => cases::yes(names::same(a, b)),
        4 => cases::yes(names::is_undef(a)),
        _ => {}
    }
}

fn order(o: Ordering) {
    let sign = match o {
        Ordering::Less => b'<',
        Ordering::Equal => b'=',
        Ordering::Greater => b'>',
    };
    cases::text(&[b' ', sign]);
}
