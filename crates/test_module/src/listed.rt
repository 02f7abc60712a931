// Questions to the lists of symbols and of extern names.
use crate::say;
use arch::VA;
use symbols::{Extern, Symbol};

// Every record, and the number behind the last.
pub fn symbols(f: &[u8], table: &[u8], n: u16) {
    for k in 0..u32::from(n) + 1 {
        symbol(f, table, k);
    }
}

fn symbol(f: &[u8], table: &[u8], k: u32) {
    cases::text(b"symbol");
    match symbols::entry::<Symbol>(table, k as usize) {
        Ok(s) => symbol_at(f, table, s, k),
        Err(r) => say::refused(r),
    }
    say::end();
}

// Its name, the last record of that name, its address, and the first record and the next one there.
fn symbol_at(f: &[u8], table: &[u8], s: Symbol, k: u32) {
    let name = symbols::name_of::<Symbol>(f, table, k as usize);
    say::name(name);
    say::number(symbols::named::<Symbol>(f, table, name));
    say::place(s.address.0);
    say::number(symbols::symbol_at(table, s.address, 0));
    say::number(symbols::symbol_at(table, s.address, k as usize + 1));
    say::number(symbols::symbol_at(table, VA(s.address.0 / 2), 0));
}

// The same of extern names.
pub fn externs(f: &[u8], table: &[u8], n: u16) {
    for k in 0..u32::from(n) + 1 {
        extern_name(f, table, k);
    }
}

fn extern_name(f: &[u8], table: &[u8], k: u32) {
    cases::text(b"extern");
    match symbols::entry::<Extern>(table, k as usize) {
        Ok(e) => extern_at(f, table, e, k),
        Err(r) => say::refused(r),
    }
    say::end();
}

// Its name, the record of that name, and its address.
fn extern_at(f: &[u8], table: &[u8], e: Extern, k: u32) {
    let name = symbols::name_of::<Extern>(f, table, k as usize);
    say::name(name);
    say::number(symbols::named::<Extern>(f, table, name));
    say::place(e.address.0);
}
