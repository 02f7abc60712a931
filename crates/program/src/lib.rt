// Document 01's program on one object: loaded at 0x20000000, patched fully, and listed on standard output.
#![tactic(auto)]

mod written;

ghost use Rattle.std.specs.Prelude.{◌≡◌, ◌+◌, ◌*◌, ◌≤◌, ◌<◌};
ghost use Rattle.verdict.specs.declared.answer.Verdict.TheVariants as verdicts;
ghost use Rattle.verdict.specs.Verdict.{verdict_of};
ghost use Rattle.program.specs.Output.{line_total};
ghost use Rattle.program.specs.Within.{Within};
ghost use Rattle.program.specs.Holding.{Ready, HoldsTables, Printed};
ghost use Rattle.storage.specs.Storage.{SameBuffers, storage_of};

use arch::{PAGE_SIZE, VA};
use listing::Tables;
use refusal::Refusal;
use storage::Lent;
use survey::Counts;
use text::Writer;
use verdict::Verdict;
pub use written::{Written, count};

// Room for a file of one byte more, which is seen to be too large.
pub const FILE_ROOM: usize = 16385;

// Room for what the verdict's limits let by: 8 pages and their marks, 17 records of the section table, 128 of each list.
const IMAGE_ROOM: usize = 32768;

const MARKS_ROOM: usize = 8;

const SECTIONS_ROOM: usize = 1088;

const SYMBOLS_ROOM: usize = 6144;

const EXTERNS_ROOM: usize = 4096;

const FIXUPS_ROOM: usize = 3072;

const SKIPS_ROOM: usize = 3072;

// Room for the longest line, which has a name as long as the file.
const LINE_ROOM: usize = 16512;

// Where it loads.
const BASE: u64 = 0x20000000;

fn too_large(f: &[u8]) -> Written
    requires { verdict_of f.now ≡ verdicts.TooLarge }
    ensures { result.lines ≡ line_total f.now }
{
    let mut line = [0u8; LINE_ROOM];
    let mut out = Writer {
        out: &mut line,
        at: 0,
    };
    lines::too_large_line(&mut out);
    written::say(f, written::none(), out.written())
}

fn refused(f: &[u8], refusal: Refusal) -> Written
    requires { verdict_of f.now ≡ verdicts.Refused refusal }
    ensures { result.lines ≡ line_total f.now }
{
    let mut line = [0u8; LINE_ROOM];
    let mut out = Writer {
        out: &mut line,
        at: 0,
    };
    lines::refused_line(&mut out, refusal.number());
    written::say(f, written::none(), out.written())
}

// The next line of the load.
fn list_line(
    f: &[u8],
    c: Counts,
    sections: &[u8],
    symbols: &[u8],
    externs: &[u8],
    fixups: &[u8],
    skips: &[u8],
    w: Written,
) -> Written
    requires holds_tables { HoldsTables f.now c sections.now symbols.now externs.now fixups.now skips.now }
    requires lines_bound { w.lines < 1000 }
    ensures { result.lines ≡ w.lines + 1 }
{
    let mut line = [0u8; LINE_ROOM];
    let mut out = Writer {
        out: &mut line,
        at: 0,
    };
    let tables = Tables {
        file: f,
        counts: c,
        sections,
        symbols,
        externs,
        fixups,
        skips,
    };
    tables.line(VA(BASE), written::count(w), &mut out);
    written::say(f, w, out.written())
}

// Every line of the load.
fn list(
    f: &[u8],
    c: Counts,
    sections: &[u8],
    symbols: &[u8],
    externs: &[u8],
    fixups: &[u8],
    skips: &[u8],
) -> Written
    requires { HoldsTables f.now c sections.now symbols.now externs.now fixups.now skips.now }
    ensures { result.lines ≡ line_total f.now }
{
    let n = listing::line_count(c);
    let mut w = written::none();
    while (written::count(w) as u64) < n {
        w = list_line(f, c, sections, symbols, externs, fixups, skips, w);
    }
    w
}

// The bytes of n records, for which there is room.
fn bytes(size: usize, n: u64, most: usize) -> usize
    requires { size * n ≤ most }
    ensures value { result ≡ size * n }
    ensures upper_bound { result ≤ most }
{
    size * n as usize
}

// Storage of its own, lent in just the counted sizes, so that each buffer is its table.
#[tactic(auto, using(crate::proofs::Laws::same_part, crate::proofs::Laws::is_ready))]
fn lend(f: &[u8], c: Counts) -> Written
    requires { Within f.now c }
    ensures { result.lines ≡ line_total f.now }
{
    let mut image_room = [0u8; IMAGE_ROOM];
    let mut marks_room = [0u8; MARKS_ROOM];
    let mut sections_room = [0u8; SECTIONS_ROOM];
    let mut symbols_room = [0u8; SYMBOLS_ROOM];
    let mut externs_room = [0u8; EXTERNS_ROOM];
    let mut fixups_room = [0u8; FIXUPS_ROOM];
    let mut skips_room = [0u8; SKIPS_ROOM];
    let image_bytes = bytes(PAGE_SIZE as usize, c.pages, IMAGE_ROOM);
    let marks_bytes = bytes(
        marks::WORD_BYTES as usize,
        marks::words_for(c.pages),
        MARKS_ROOM,
    );
    let sections_bytes = bytes(limits::SECTION_BYTES, c.sections, SECTIONS_ROOM);
    let symbols_bytes = bytes(limits::SYMBOL_BYTES, c.symbols, SYMBOLS_ROOM);
    let externs_bytes = bytes(limits::EXTERN_BYTES, c.externs, EXTERNS_ROOM);
    let fixups_bytes = bytes(limits::FIXUP_BYTES, c.fixups, FIXUPS_ROOM);
    let skips_bytes = bytes(limits::SKIP_BYTES, c.skips, SKIPS_ROOM);
    let mut lent = Lent {
        image: &mut image_room[..image_bytes],
        marks: &mut marks_room[..marks_bytes],
        sections: &mut sections_room[..sections_bytes],
        symbols: &mut symbols_room[..symbols_bytes],
        externs: &mut externs_room[..externs_bytes],
        fixups: &mut fixups_room[..fixups_bytes],
        skips: &mut skips_room[..skips_bytes],
    };
    loaded(f, c, &mut lent)
}

// Patches before the first line is written.
fn loaded(f: &[u8], c: Counts, lent: &mut Lent) -> Written
    requires { Ready f.now c (storage_of lent.old) }
    ensures same { SameBuffers lent.old lent.new }
    ensures printed { Printed f.now lent.new.image.now result.lines }
{
    let _ = load::load(f, VA(BASE), lent);
    // A variable each: two fields behind `lent` can't be lent to one call as shared.
    let image = &mut *lent.image;
    let marks = &mut *lent.marks;
    let fixups = &mut *lent.fixups;
    let _ = patch::patch(VA(BASE), image, marks, fixups, u64::MAX, 0);
    let sections = &mut *lent.sections;
    let symbols = &mut *lent.symbols;
    let externs = &mut *lent.externs;
    let skips = &mut *lent.skips;
    list(f, c, sections, symbols, externs, fixups, skips)
}

// The program's output for one object, every line of it written.
pub fn top_up(f: &[u8]) -> Written
    ensures { result.lines ≡ line_total f.now }
{
    match verdict::verdict(f) {
        Verdict::TooLarge => too_large(f),
        Verdict::Refused(r) => refused(f, r),
        Verdict::Lines(c) => lend(f, c),
    }
}
