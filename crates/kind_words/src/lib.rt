// Document 01's words for kinds of symbols, places and kinds of relocations, put into a lent buffer.
#![tactic(auto)]

ghost use Rattle.kinds.specs.Words.{kind_word, place_word, relocation_kind_word};
ghost use Rattle.text.specs.Text.{Wrote};

use kinds::{Place, RelocationKind, SymbolKind};
use text::Writer;

// The word of a symbol kind.
pub fn put_kind(w: &mut Writer, kind: SymbolKind)
    ensures { Wrote w.old (kind_word kind) w.new }
{
    let word: &[u8] = match kind {
        SymbolKind::Unknown => b"unknown",
        SymbolKind::Text => b"text",
        SymbolKind::Data => b"data",
        SymbolKind::Section => b"section",
        SymbolKind::File => b"file",
        SymbolKind::Label => b"label",
    };
    w.text(word);
}

// The word of a place.
pub fn put_place(w: &mut Writer, place: Place)
    ensures { Wrote w.old (place_word place) w.new }
{
    let word: &[u8] = match place {
        Place::In(_) => b"section",
        Place::Undefined => b"undefined",
        Place::Common => b"common",
        Place::Absolute => b"absolute",
        Place::Nowhere => b"none",
        Place::Other => b"unknown",
    };
    w.text(word);
}

// The word of a relocation kind.
pub fn put_relocation_kind(w: &mut Writer, kind: RelocationKind)
    ensures { Wrote w.old (relocation_kind_word kind) w.new }
{
    let word: &[u8] = match kind {
        RelocationKind::Absolute => b"absolute",
        RelocationKind::ImageOffset => b"image offset",
        RelocationKind::SectionOffset => b"section offset",
        RelocationKind::Relative => b"relative",
        RelocationKind::NotCarried => b"not carried",
        RelocationKind::Unknown => b"unknown",
    };
    w.text(word);
}
