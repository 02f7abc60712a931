// The symbol records, the undefined ones first, and their names.
use crate::shape;
use crate::shape::Plan;

// What a short name ends with: "_fun" and ".sec".
const FUNCTION: u32 = 0x6E75665F;

pub(crate) const SECTION: u32 = 0x6365732E;

// Four letters, 'a' to 'p', that rise with n.
pub(crate) fn letters(n: u16) -> u32 {
    let a = (n / 4096 % 16) as u32;
    let b = (n / 256 % 16) as u32;
    let c = (n / 16 % 16) as u32;
    let d = (n % 16) as u32;
    0x61616161 + a + 0x100 * b + 0x10000 * c + 0x1000000 * d
}

pub(crate) fn put_short(f: &mut [u8], at: u32, n: u16, end: u32) {
    le::put_u32(f, at as usize, letters(n));
    le::put_u32(f, at as usize + 4, end);
}

fn undefined(p: Plan) -> u16 {
    p.symbols.saturating_sub(p.defined)
}

// The last extern names are the long ones; they begin with 'q', so they are the greatest.
fn put_extern(f: &mut [u8], p: Plan, at: u32, e: u16) {
    let short = p.externs.saturating_sub(p.long);
    if e < short {
        put_short(f, at, e, FUNCTION);
    } else {
        le::put_u32(f, at as usize + 4, shape::string_offset(p, e - short));
    }
}

// In a section: external data.
fn put_defined(f: &mut [u8], p: Plan, at: u32, j: u16) {
    le::put_u32(f, at as usize + 12, shape::turn(j, p.sections) as u32 + 1);
    le::put_u8(f, at as usize + 16, 2);
}

// Undefined: a function, by its type.
fn put_undefined(f: &mut [u8], p: Plan, at: u32) {
    le::put_u16(f, at as usize + 14, 0x20);
    le::put_u8(f, at as usize + 16, p.class);
}

// The undefined ones take the extern names in rising order, and those that are left the last name.
fn put_symbol(f: &mut [u8], p: Plan, j: u16) {
    let at = shape::symbol_at(p, j);
    if j < undefined(p) {
        put_extern(f, p, at, j.min(p.externs.saturating_sub(1)));
        put_undefined(f, p, at);
    } else {
        put_short(f, at, j, FUNCTION);
        put_defined(f, p, at, j);
    }
}

pub(crate) fn put_symbols(f: &mut [u8], p: Plan) {
    for j in 0..p.symbols {
        put_symbol(f, p, j);
    }
}

// The symbol of relocation g. With no symbol defined, symbol g or the last: each name is greater than those before it, or is the greatest.
// Otherwise an undefined and a defined one by turns.
pub(crate) fn named_by(p: Plan, g: u16) -> u32 {
    let n = undefined(p);
    if p.defined == 0 {
        return u32::from(g.min(n.saturating_sub(1)));
    }
    if g % 2 == 0 {
        shape::turn(g / 2, n) as u32
    } else {
        n as u32 + shape::turn(g / 2, p.defined) as u32
    }
}
