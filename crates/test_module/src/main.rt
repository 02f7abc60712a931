// Loads each object of standard input at 0x20000000 and asks the module's questions at every boundary of its tables. An object is
// a 32-bit little-endian length and then its bytes.
// The expected output is not this program's: a script answered the same questions from the reference model's tables.
#![tactic(auto)]

mod ask;
mod boundary;
mod listed;
mod reading;
mod say;

use arch::{Arch, VA};
use refusal::Refusal;
use storage::Lent;
use survey::Counts;

const BASE: u64 = 0x20000000;

// More than the input has.
fn main() {
    let mut text = [0u8; 131072];
    let n = io::read_full(0, &mut text);
    each(le::part(&text, 0, n));
}

fn each(text: &[u8]) {
    let mut n: u64 = 0;
    let mut at: usize = 0;
    // A `while`: each object says where the next one begins.
    while at < text.len() {
        let length = le::u32_at(text, at) as usize;
        cases::part(b"case ", n);
        say::end();
        loaded(le::part(text, at + 4, length));
        at = at + 4 + length;
        n += 1;
    }
}

// Room for 8 pages, 17 records of the section table, 128 of each list.
fn loaded(f: &[u8]) {
    let mut image = [0u8; 32768];
    let mut marks = [0u8; 8];
    let mut sections = [0u8; 1088];
    let mut symbols = [0u8; 6144];
    let mut externs = [0u8; 4096];
    let mut fixups = [0u8; 3072];
    let mut skips = [0u8; 3072];
    let mut lent = Lent {
        image: &mut image,
        marks: &mut marks,
        sections: &mut sections,
        symbols: &mut symbols,
        externs: &mut externs,
        fixups: &mut fixups,
        skips: &mut skips,
    };
    let s = load::load(f, VA(BASE), &mut lent);
    match s {
        Err(r) => refused(r),
        Ok(c) => {
            asked(f, c, &sections, &symbols, &externs);
            read(f, c, &image, &marks, &sections);
        }
    }
}

fn refused(r: Refusal) {
    cases::part(b"refused ", r.number());
    say::end();
}

// The counted parts of the tables.
fn asked(f: &[u8], c: Counts, sections: &[u8], symbols: &[u8], externs: &[u8]) {
    let n = cases::few(c.sections);
    let k = cases::few(c.symbols);
    let list = le::part(symbols, 0, k as usize * limits::SYMBOL_BYTES);
    boundary::all(
        f,
        le::part(sections, 0, n as usize * limits::SECTION_BYTES),
        list,
        n,
    );
    listed::symbols(f, list, k);
    let e = cases::few(c.externs);
    listed::externs(
        f,
        le::part(externs, 0, e as usize * limits::EXTERN_BYTES),
        e,
    );
}

// The pointers, as wide as the object's machine has them.
fn read(f: &[u8], c: Counts, image: &[u8], marks: &[u8], sections: &[u8]) {
    let arch = Arch::by_machine(object::read_header(f).machine);
    let n = cases::few(c.sections);
    let table = le::part(sections, 0, n as usize * limits::SECTION_BYTES);
    reading::all(image, marks, arch, table, n, cases::few(c.pages));
}
