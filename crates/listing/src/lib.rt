// Line k of what document 01's program prints for a loaded object, put into a lent buffer.
#![tactic(auto)]

ghost use Rattle.std.specs.Prelude.{◌≡◌, ◌+◌, ◌*◌, ◌%◌, ◌^◌, ◌<◌, [], slice_index_or};
ghost use Rattle.limits.specs.Records.{WORD, SECTION_WORDS, SECTION_START, SECTION_END, SECTION_FILE_START, SECTION_FILE_END, SECTION_PERMISSIONS, ADDRESS};
ghost use Rattle.words.specs.Words.{word_of};
ghost use Rattle.text.specs.Text.{Wrote};
ghost use Rattle.lines.specs.Lines.{section_line};
ghost use Rattle.listing.specs.Listing.{
  section_line_at,
  symbol_line_at,
  extern_line_at,
  fix_line_at,
  skip_line_at,
  from_skips,
  from_fixups,
  from_externs,
  from_symbols,
  from_sections,
  listing,
  line_count,
};

use arch::VA;
use kinds::SymbolKind;
use limits::{
    ADDRESS, EXTERN_WORDS, FIXUP_BITS, FIXUP_PLACE, FIXUP_VALUE, FIXUP_WORDS, NAME_LENGTH,
    NAME_START, SECTION_END, SECTION_FILE_END, SECTION_FILE_NUMBER, SECTION_FILE_START,
    SECTION_NAME_LENGTH, SECTION_NAME_START, SECTION_PERMISSIONS, SECTION_START, SECTION_WORDS,
    SKIP_REASON, SKIP_RECORD, SKIP_SECTION, SKIP_WORDS, SYMBOL_KIND, SYMBOL_WORDS, WORD,
};
use survey::Counts;
use text::Writer;

// What the record of UNDEF has in place of a section's number.
const UNDEF_NUMBER: u64 = 0;

// Word w of record i, where a record has `width` words.
#[tactic(auto, unfolding(words::specs::Words::word_of))]
fn word(table: &[u8], width: u8, i: u32, w: u8) -> u64
    requires { WORD * (width * i + w) < 2 ^ 64 }
    ensures { result ≡ word_of width table.now i w }
{
    le::u64_at(table, WORD * (width as usize * i as usize + w as usize))
}

fn section_named(t: &[u8], i: u32, name: &[u8], out: &mut Writer)
    ensures { Wrote out.old
        (section_line (word_of SECTION_WORDS t.now i SECTION_START) (word_of SECTION_WORDS t.now i SECTION_END) (word_of SECTION_WORDS t.now i SECTION_FILE_START) (word_of SECTION_WORDS t.now i SECTION_FILE_END) (word_of SECTION_WORDS t.now i SECTION_PERMISSIONS) name.now)
        out.new }
{
    lines::section_line(
        out,
        VA(word(t, SECTION_WORDS, i, SECTION_START)),
        VA(word(t, SECTION_WORDS, i, SECTION_END)),
        word(t, SECTION_WORDS, i, SECTION_FILE_START),
        word(t, SECTION_WORDS, i, SECTION_FILE_END),
        word(t, SECTION_WORDS, i, SECTION_PERMISSIONS),
        name,
    );
}

// UNDEF has no number, and no name in the file.
fn section_at(f: &[u8], t: &[u8], i: u32, out: &mut Writer)
    ensures { Wrote out.old (section_line_at f.now t.now i) out.new }
{
    if word(t, SECTION_WORDS, i, SECTION_FILE_NUMBER) == UNDEF_NUMBER {
        section_named(t, i, b"UNDEF", out);
    } else {
        let name = le::part(
            f,
            word(t, SECTION_WORDS, i, SECTION_NAME_START) as usize,
            word(t, SECTION_WORDS, i, SECTION_NAME_LENGTH) as usize,
        );
        section_named(t, i, name, out);
    }
}

fn symbol_at(f: &[u8], t: &[u8], i: u32, out: &mut Writer)
    ensures { Wrote out.old (symbol_line_at f.now t.now i) out.new }
{
    let name = le::part(
        f,
        word(t, SYMBOL_WORDS, i, NAME_START) as usize,
        word(t, SYMBOL_WORDS, i, NAME_LENGTH) as usize,
    );
    lines::symbol_line(
        out,
        VA(word(t, SYMBOL_WORDS, i, ADDRESS)),
        SymbolKind::from(word(t, SYMBOL_WORDS, i, SYMBOL_KIND)),
        name,
    );
}

fn extern_at(f: &[u8], t: &[u8], i: u32, out: &mut Writer)
    ensures { Wrote out.old (extern_line_at f.now t.now i) out.new }
{
    let name = le::part(
        f,
        word(t, EXTERN_WORDS, i, NAME_START) as usize,
        word(t, EXTERN_WORDS, i, NAME_LENGTH) as usize,
    );
    lines::extern_line(out, VA(word(t, EXTERN_WORDS, i, ADDRESS)), name);
}

fn fix_at(t: &[u8], i: u32, out: &mut Writer)
    ensures { Wrote out.old (fix_line_at t.now i) out.new }
{
    lines::fix_line(
        out,
        VA(word(t, FIXUP_WORDS, i, FIXUP_PLACE)),
        word(t, FIXUP_WORDS, i, FIXUP_BITS),
        word(t, FIXUP_WORDS, i, FIXUP_VALUE),
    );
}

fn skip_at(t: &[u8], i: u32, out: &mut Writer)
    ensures { Wrote out.old (skip_line_at t.now i) out.new }
{
    lines::skip_line(
        out,
        word(t, SKIP_WORDS, i, SKIP_SECTION),
        word(t, SKIP_WORDS, i, SKIP_RECORD),
        word(t, SKIP_WORDS, i, SKIP_REASON),
    );
}

// A loaded object: its file, how many records its tables have, and the tables that load wrote.
#[derive(Clone, Copy)]
pub struct Tables<'a> {
    pub file: &'a [u8],
    pub counts: Counts,
    pub sections: &'a [u8],
    pub symbols: &'a [u8],
    pub externs: &'a [u8],
    pub fixups: &'a [u8],
    pub skips: &'a [u8],
}

impl Tables<'_> {
    // Line k of those from the skips on; past the last there is none.
    fn from_skips(&self, k: u32, out: &mut Writer)
        ensures { Wrote out.old (slice_index_or (from_skips self.now.counts self.now.skips.now) k []) out.new }
    {
        let n = self.counts.skips;
        if u64::from(k) < n {
            skip_at(self.skips, k, out);
        } else if u64::from(k) == n {
            lines::skipped_line(out, n, self.counts.passed);
        }
    }

    fn from_fixups(&self, k: u32, out: &mut Writer)
        ensures { Wrote out.old (slice_index_or (from_fixups self.now.counts self.now.fixups.now self.now.skips.now) k []) out.new }
    {
        let n = self.counts.fixups;
        if u64::from(k) < n {
            fix_at(self.fixups, k, out);
        } else {
            self.from_skips(k - n as u32, out);
        }
    }

    fn from_externs(&self, k: u32, out: &mut Writer)
        ensures { Wrote out.old
            (slice_index_or (from_externs self.now.file.now self.now.counts self.now.externs.now self.now.fixups.now self.now.skips.now) k [])
            out.new }
    {
        let n = self.counts.externs;
        if u64::from(k) < n {
            extern_at(self.file, self.externs, k, out);
        } else {
            self.from_fixups(k - n as u32, out);
        }
    }

    fn from_symbols(&self, k: u32, out: &mut Writer)
        ensures { Wrote out.old
            (slice_index_or (from_symbols self.now.file.now self.now.counts self.now.symbols.now self.now.externs.now self.now.fixups.now self.now.skips.now) k [])
            out.new }
    {
        let n = self.counts.symbols;
        if u64::from(k) < n {
            symbol_at(self.file, self.symbols, k, out);
        } else {
            self.from_externs(k - n as u32, out);
        }
    }

    fn from_sections(&self, k: u32, out: &mut Writer)
        ensures { Wrote out.old
            (slice_index_or (from_sections self.now.file.now self.now.counts self.now.sections.now self.now.symbols.now self.now.externs.now self.now.fixups.now self.now.skips.now) k [])
            out.new }
    {
        let n = self.counts.sections;
        if u64::from(k) < n {
            section_at(self.file, self.sections, k, out);
        } else {
            self.from_symbols(k - n as u32, out);
        }
    }

    // Line k of an object loaded at `base`; past the last line there is none.
    pub fn line(&self, base: VA, k: u32, out: &mut Writer)
        ensures { Wrote out.old
            (slice_index_or (listing self.now.file.now base.0 self.now.counts self.now.sections.now self.now.symbols.now self.now.externs.now self.now.fixups.now self.now.skips.now) k [])
            out.new }
    {
        if k == 0 {
            lines::image_line(out, base, self.counts.pages);
        } else {
            self.from_sections(k - 1, out);
        }
    }
}

// How many lines there are, in 64 bits.
#[tactic(auto, using(crate::proofs::Laws::wraps), unfolding(crate::specs::Listing::line_count))]
pub fn line_count(c: Counts) -> u64
    ensures { result ≡ line_count c % 2 ^ 64 }
{
    c.sections
        .wrapping_add(c.symbols)
        .wrapping_add(c.externs)
        .wrapping_add(c.fixups)
        .wrapping_add(c.skips)
        .wrapping_add(2)
}
