// What a load writes: tables, lists, marks and image into lent storage that has room for them.
#![tactic(auto)]

ghost use Rattle.std.specs.Prelude.{◌≡◌};
ghost use Rattle.le.specs.Le.{part};
ghost use Rattle.object.specs.Format.{header_of};
ghost use Rattle.homes.specs.Home.{home_in, record_in};
ghost use Rattle.storage.specs.Storage.{SameBuffers, storage_of, stored, Known};
ghost use Rattle.storage.specs.Writing.{LayoutIs, NamesAre};

use arch::{Arch, RVA, VA};
use object::Header;

// What the caller lends to a load: a buffer for each thing that it writes.
#[derive(Drop)]
pub struct Lent<'a> {
    pub image: &'a mut [u8],
    pub marks: &'a mut [u8],
    pub sections: &'a mut [u8],
    pub symbols: &'a mut [u8],
    pub externs: &'a mut [u8],
    pub fixups: &'a mut [u8],
    pub skips: &'a mut [u8],
}

// The section table, the image and its marks.
fn write_layout(
    f: &[u8],
    h: Header,
    base: VA,
    homes: &[u32],
    undef: RVA,
    pages: u32,
    n: u32,
    sections: &mut [u8],
    image: &mut [u8],
    marks: &mut [u8],
)
    ensures { LayoutIs f.now h base.0 (home_in homes.now) undef.0 pages n sections.old sections.new image.old image.new
        marks.old marks.new }
{
    tables::write_sections(f, h, base, homes, undef, sections);
    image::lay_marked(f, h, homes, pages, base, undef, n, image, marks);
}

// The two tables of names.
fn write_names(
    f: &[u8],
    h: Header,
    base: VA,
    homes: &[u32],
    undef: RVA,
    n: u32,
    slots: &[u32],
    symbols: &mut [u8],
    externs: &mut [u8],
)
    ensures { NamesAre f.now h base.0 (home_in homes.now) (record_in homes.now) undef.0 n slots.now symbols.old
        symbols.new externs.old externs.new }
{
    symbol_table::write_symbols(f, h, base, homes, symbols);
    tables::write_externs(f, h, base, undef, slots, n, externs);
}

// Everything that is counted, into buffers that have room for it; told where homes, codes and the first n slots say what the rules do.
pub fn write_all(
    f: &[u8],
    base: VA,
    homes: &[u32],
    codes: &[u16],
    slots: &[u32],
    n: usize,
    lent: &mut Lent,
)
    ensures same { SameBuffers lent.old lent.new }
    ensures writes { Known f.now (header_of f.now) homes.now codes.now (part slots.now 0 n)
        → storage_of lent.new ≡ stored f.now (header_of f.now) base.0 (storage_of lent.old) }
{
    let h = object::read_header(f);
    let start = layout::undef_start(f, h);
    let undef = layout::offset_word(start);
    let pages = layout::page_word(start);
    let arch = Arch::by_machine(h.machine);
    let names = le::words(slots, n);
    let low = names.len() % 0x100000000;
    let count = low as u32;
    write_layout(
        f,
        h,
        base,
        homes,
        start,
        pages,
        count,
        lent.sections,
        lent.image,
        lent.marks,
    );
    write_names(
        f,
        h,
        base,
        homes,
        start,
        count,
        names,
        lent.symbols,
        lent.externs,
    );
    lists::write_relocations(
        arch,
        f,
        h,
        homes,
        undef,
        codes,
        base,
        lent.fixups,
        lent.skips,
    );
}
