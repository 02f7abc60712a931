// Answers on standard output. A word that many lines have is written in one place, since each place that lends one is proved.
use arch::{RVA, VA};
use nearest::Routine;
use refusal::Refusal;

// The end of a line.
pub fn end() {
    cases::end();
}

// A part of a line: a number, in decimal.
fn value(n: u64) {
    cases::part(b" ", n);
}

// An address or an offset, in hexadecimal.
pub fn place(n: u64) {
    cases::address(b" ", n);
}

// The word `refused`, and the number.
pub fn refused(r: Refusal) {
    cases::part(b" refused ", r.number());
}

// A name, as its bytes.
pub fn name(s: &[u8]) {
    cases::text(b" ");
    cases::text(s);
}

// A number, or `refused` and its number.
pub fn number(n: Result<u64, Refusal>) {
    match n {
        Ok(k) => value(k),
        Err(r) => refused(r),
    }
}

// An address, or `refused` and the number.
pub fn address(a: Result<VA, Refusal>) {
    match a {
        Ok(va) => place(va.0),
        Err(r) => refused(r),
    }
}

// An offset from the base, or `refused` and the number.
pub fn offset(a: Result<RVA, Refusal>) {
    match a {
        Ok(rva) => place(rva.0),
        Err(r) => refused(r),
    }
}

// A symbol's number and a distance, or `refused` and the number.
pub fn routine(a: Result<Routine, Refusal>) {
    match a {
        Ok(r) => {
            value(r.symbol);
            value(r.distance);
        }
        Err(r) => refused(r),
    }
}

// The word `yes` or `no`.
pub fn yes(b: bool) {
    if b {
        cases::text(b" yes");
    } else {
        cases::text(b" no");
    }
}
