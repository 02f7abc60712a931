// Places of symbols, maps of their records, and the second symbol's record with each class.
use kinds::Place;
use object::Header;

// A section by its number; the other places have numbers past all of those, with a last digit of their own.
pub(crate) fn place_number(place: Place) -> u64 {
    match place {
        Place::In(n) => u64::from(n),
        Place::Absolute => 0x1000A,
        Place::Common => 0x1000C,
        Place::Undefined => 0x1000D,
        Place::Nowhere => 0x1000E,
        Place::Other => 0x1000F,
    }
}

// Maps of eight and of three bytes: those past the records stay EE, and what does not fit is left out.
pub(crate) fn maps(f: &[u8], h: Header) {
    let mut long = [0xEEu8; 8];
    let mut short = [0xEEu8; 3];
    fill(f, h, &mut long);
    fill(f, h, &mut short);
    cases::bytes(&long);
    cases::bytes(&short);
}

// A byte for each record: 1 for a symbol's own, 0 for an auxiliary one.
fn fill(f: &[u8], h: Header, own: &mut [u8]) {
    let mut left = 0;
    for j in 0..h.symbols {
        le::put_u8(own, j as usize, u8::from(left == 0));
        left = object::left_after(f, h, j, left);
    }
}

// What symbol 1 is with each class from 0 to 255: the class from which on it is something else, and what.
pub(crate) fn classes(f: &[u8]) {
    let mut last = u64::MAX;
    for class in 0..256 {
        let now = with_class(f, class);
        if now != last {
            cases::hex(class);
            cases::padded(now, 7);
            last = now;
        }
    }
}

// Its record stands at 38, as the symbols start at 20.
fn with_class(f: &[u8], class: u64) -> u64 {
    let mut g = [0u8; 64];
    le::copy(&mut g, 0, f);
    g[54] = (class % 256) as u8;
    digits(&g)
}

// A digit for the kind, five for the place and one for the listed value.
fn digits(f: &[u8]) -> u64 {
    let h = object::read_header(f);
    let kind = u64::from(object::symbol_kind(f, h, 1));
    let place = place_number(object::symbol_place(f, h, 1));
    let listed = u64::from(object::listed_value(f, h, 1));
    kind % 16 * 0x1000000 + place % 0x100000 * 16 + listed % 16
}
