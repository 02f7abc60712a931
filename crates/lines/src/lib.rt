// The lines of document 01's program, each put into a lent buffer.
#![tactic(auto)]

ghost use Rattle.std.specs.Prelude.{◌++◌};
ghost use Rattle.kinds.specs.Words.{kind_word};
ghost use Rattle.text.specs.Text.{decimal_text, word, Wrote};
ghost use Rattle.lines.specs.Lines.{
  K_WORD,
  image_line,
  section_places,
  section_line,
  symbol_line,
  extern_line,
  fix_line,
  skip_line,
  skipped_line,
  refused_line,
  too_large_line,
};

use arch::VA;
use kind_words::put_kind;
use kinds::SymbolKind;
use text::Writer;

// Where the image is, and its pages.
pub fn image_line(w: &mut Writer, base: VA, pages: u64)
    ensures { Wrote w.old (image_line base.0 pages) w.new }
{
    w.hex_head(b"image ", base.0);
    w.text(b"pages ");
    w.decimal(pages);
    w.byte(b'\n');
}

fn section_places(w: &mut Writer, start: VA, end: VA, from: u64, to: u64)
    ensures { Wrote w.old (section_places start.0 end.0 from to) w.new }
{
    w.hex_head(b"section ", start.0);
    w.hex_word(end.0);
    w.decimal_word(from);
    w.decimal_word(to);
}

// A section: its range, its file range, its permissions and its name.
pub fn section_line(
    w: &mut Writer,
    start: VA,
    end: VA,
    from: u64,
    to: u64,
    allowed: u64,
    name: &[u8],
)
    ensures { Wrote w.old (section_line start.0 end.0 from to allowed name.now) w.new }
{
    section_places(w, start, end, from, to);
    w.permissions_word(allowed);
    w.text(name);
    w.byte(b'\n');
}

fn kind_word(w: &mut Writer, kind: SymbolKind)
    ensures { Wrote w.old (word (kind_word kind)) w.new }
{
    put_kind(w, kind);
    w.byte(b' ');
}

// A listed symbol.
pub fn symbol_line(w: &mut Writer, address: VA, kind: SymbolKind, name: &[u8])
    ensures { Wrote w.old (symbol_line address.0 kind name.now) w.new }
{
    w.hex_head(b"symbol ", address.0);
    kind_word(w, kind);
    w.text(name);
    w.byte(b'\n');
}

// An extern name and its slot.
pub fn extern_line(w: &mut Writer, slot: VA, name: &[u8])
    ensures { Wrote w.old (extern_line slot.0 name.now) w.new }
{
    w.hex_head(b"extern ", slot.0);
    w.text(name);
    w.byte(b'\n');
}

// The value is in two's complement.
pub fn fix_line(w: &mut Writer, place: VA, bits: u64, value: u64)
    ensures { Wrote w.old (fix_line place.0 bits value) w.new }
{
    w.hex_head(b"fix ", place.0);
    w.decimal_word(bits);
    w.signed(value);
    w.byte(b'\n');
}

fn reason_word(w: &mut Writer, reason: u64)
    ensures { Wrote w.old (K_WORD ++ decimal_text reason) w.new }
{
    w.byte(b'K');
    w.decimal(reason);
}

// A skipped relocation and its reason.
pub fn skip_line(w: &mut Writer, section: u64, relocation: u64, reason: u64)
    ensures { Wrote w.old (skip_line section relocation reason) w.new }
{
    w.decimal_head(b"skip ", section);
    w.decimal_word(relocation);
    reason_word(w, reason);
    w.byte(b'\n');
}

// How many were skipped, and passed.
pub fn skipped_line(w: &mut Writer, skips: u64, passed: u64)
    ensures { Wrote w.old (skipped_line skips passed) w.new }
{
    w.decimal_head(b"skipped ", skips);
    w.text(b"passed ");
    w.decimal(passed);
    w.byte(b'\n');
}

// A refusal.
pub fn refused_line(w: &mut Writer, n: u64)
    ensures { Wrote w.old (refused_line n) w.new }
{
    w.text(b"refused ");
    w.decimal(n);
    w.byte(b'\n');
}

// An object that the program has no room for.
pub fn too_large_line(w: &mut Writer)
    ensures { Wrote w.old too_large_line w.new }
{
    w.text(b"too large\n");
}
