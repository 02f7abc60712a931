// The header, the section records and the relocations.
use crate::shape::Plan;
use crate::{shape, symbol_rows};

// For x64.
pub(crate) fn put_header(f: &mut [u8], p: Plan) {
    le::put_u16(f, 0, 0x8664);
    le::put_u16(f, 2, p.sections);
    le::put_u32(f, 8, shape::symbol_at(p, 0));
    le::put_u32(f, 12, p.symbols as u32);
}

// The relocations go to the sections in equal shares, one more to the first ones: how many stand before section i's, and how many are its own.
fn before(p: Plan, i: u16) -> u32 {
    let over = shape::turn(p.relocations, p.sections).min(i);
    shape::product(shape::share(p.relocations, p.sections), i) + u32::from(over)
}

fn own(p: Plan, i: u16) -> u32 {
    let whole = shape::share(p.relocations, p.sections) as u32;
    if i < shape::turn(p.relocations, p.sections) {
        whole + 1
    } else {
        whole
    }
}

// A section whose 40 bytes are its own record: no two start at one place in the file.
fn put_section(f: &mut [u8], p: Plan, i: u16) {
    let record = shape::section_at(i);
    let at = record as usize;
    symbol_rows::put_short(f, record, i, symbol_rows::SECTION);
    le::put_u32(f, at + 16, 40);
    le::put_u32(f, at + 20, record);
    le::put(f, at + 24, 4, shape::relocation_at(p, before(p, i)) as u64);
    le::put(f, at + 32, 2, own(p, i) as u64);
    le::put_u32(f, at + 36, 0x60500020);
}

pub(crate) fn put_sections(f: &mut [u8], p: Plan) {
    for i in 0..p.sections {
        put_section(f, p, i);
    }
}

// Relative, 32 bits.
fn put_relocation(f: &mut [u8], p: Plan, g: u16) {
    let at = shape::relocation_at(p, g as u32);
    le::put_u32(f, at, g as u32 % 32);
    le::put_u32(f, at + 4, symbol_rows::named_by(p, g));
    le::put_u16(f, at + 8, 4);
}

pub(crate) fn put_relocations(f: &mut [u8], p: Plan) {
    for g in 0..p.relocations {
        put_relocation(f, p, g);
    }
}
