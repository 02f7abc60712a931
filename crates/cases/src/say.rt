// What stands behind a question; each part brings its own space.

// Bytes as they stand.
pub fn text(s: &[u8]) {
    io::write_all(1, s);
}

// The line's end.
pub fn end() {
    text(b"\n");
}

// A number in decimal.
pub fn decimal(v: u64) {
    text(b" ");
    io::print_decimal(1, v);
}

// A number in hexadecimal, with as many digits as it needs.
pub fn hex(v: u64) {
    padded(v, 1);
}

// At least so many digits.
pub fn padded(v: u64, width: usize) {
    text(b" ");
    io::print_hex(1, v, width);
}

// Bytes, and a number in decimal behind them.
pub fn part(word: &[u8], v: u64) {
    text(word);
    io::print_decimal(1, v);
}

// The same in hexadecimal.
pub fn address(word: &[u8], v: u64) {
    text(word);
    io::print_hex(1, v, 1);
}

// A number in two's complement of 64 bits.
pub fn signed(v: u64) {
    if v < 0x8000000000000000 {
        decimal(v);
    } else {
        text(b" -");
        io::print_decimal(1, u64::MAX - v + 1);
    }
}

// Yes or no.
pub fn yes(b: bool) {
    if b {
        text(b" yes");
    } else {
        text(b" no");
    }
}

// Bytes in hexadecimal; none are a dash.
pub fn bytes(s: &[u8]) {
    text(b" ");
    if s.is_empty() {
        text(b"-");
    }
    for b in s {
        io::print_hex(1, u64::from(*b), 2);
    }
}

// The number of a refusal; any number may stand there.
pub fn refused(code: u64) {
    text(b" refused");
    decimal(code);
}

// What an operation says that only writes.
pub fn answer(a: Result<(), u64>) {
    match a {
        Ok(()) => text(b" done"),
        Err(code) => refused(code),
    }
}

// A number in hexadecimal, or the refusal.
pub fn number(n: Result<u64, u64>) {
    match n {
        Ok(v) => hex(v),
        Err(code) => refused(code),
    }
}
