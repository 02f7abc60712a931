// Pointers of the image as it is laid, each read in the four ways.
use crate::{BASE, boundary, say};
use arch::{Arch, PAGE_SIZE, RVA, VA};
use aspace::Absolute;

// At the bounds of every section, UNDEF's too, and at the end of the mapped pages.
pub fn all(image: &[u8], marks: &[u8], arch: Arch, table: &[u8], n: u16, pages: u16) {
    for i in 0..n {
        range(
            image,
            marks,
            arch,
            boundary::word(table, i, boundary::START),
            boundary::word(table, i, boundary::END),
        );
    }
    let end = BASE + u64::from(pages) * PAGE_SIZE;
    at(image, marks, arch, end - 4);
    at(image, marks, arch, end);
}

fn range(image: &[u8], marks: &[u8], arch: Arch, start: u64, end: u64) {
    at(image, marks, arch, start);
    at(image, marks, arch, end.wrapping_sub(4));
    at(image, marks, arch, end.wrapping_sub(8));
}

// An address and an offset at the offset from the base; the same at the address.
fn at(image: &[u8], marks: &[u8], arch: Arch, a: u64) {
    let o = a.wrapping_sub(BASE);
    cases::address(b"pointer ", a);
    say::address(pointers::read_va(image, marks, arch, RVA(o)));
    say::offset(pointers::read_rva(image, marks, arch, RVA(o)));
    let there = Absolute {
        base: VA(BASE),
        address: VA(a),
    };
    say::address(pointers::read_va(image, marks, arch, there));
    say::offset(pointers::read_rva(image, marks, arch, there));
    say::end();
}
