// The words of a symbol's kind and place, and of what a relocation type asks for.
use kinds::RelocationKind;
use object::Header;
use text::Writer;

pub(crate) fn kind(f: &[u8], h: Header, i: u32) {
    let mut word = [0u8; 32];
    let mut out = Writer {
        out: &mut word,
        at: 0,
    };
    kind_words::put_kind(&mut out, object::symbol_kind(f, h, i));
    say(out.written());
}

pub(crate) fn place(f: &[u8], h: Header, i: u32) {
    let mut word = [0u8; 32];
    let mut out = Writer {
        out: &mut word,
        at: 0,
    };
    kind_words::put_place(&mut out, object::symbol_place(f, h, i));
    say(out.written());
}

pub(crate) fn relocation(kind: RelocationKind) {
    let mut word = [0u8; 32];
    let mut out = Writer {
        out: &mut word,
        at: 0,
    };
    kind_words::put_relocation_kind(&mut out, kind);
    say(out.written());
}

fn say(word: &[u8]) {
    cases::text(b" ");
    cases::text(word);
}
