// The file's bytes, and the readers and writers of `le`.

// The function's place in this list, in whose order the arms below stand.
pub(crate) fn question(line: &[u8]) -> u8 {
    cases::place(
        cases::word(line, 1),
        b"size put put_u16 put_u32 put_u64 copy zero \
          byte_at u16_at u32_at u64_at ",
    )
}

// `size N` gives the file N bytes, and the writers change them in place. How many bytes it then has.
pub(crate) fn write(letter: u8, line: &[u8], file: &mut [u8], n: usize) -> usize {
    match letter {
        b'f' | b'l' => {
            let k = question(line);
            if k == 0 {
                return cases::number_at(line, 2) as usize;
            }
            if n <= file.len() {
                put(k, line, &mut file[..n]);
            }
            n
        }
        _ => n,
    }
}

fn put(k: u8, line: &[u8], f: &mut [u8]) {
    let at = cases::number_at(line, 2) as usize;
    let v = cases::number_at(line, 3);
    match k {
        1 => le::put(f, at, v as usize, cases::number_at(line, 4)),
        2 => le::put_u16(f, at, (v % 0x10000) as u16),
        3 => le::put_u32(f, at, (v % 0x100000000) as u32),
        4 => le::put_u64(f, at, v),
        5 => copy(line, f, at),
        6 => le::zero(f, at, v as usize),
        _ => {}
    }
}

fn copy(line: &[u8], f: &mut [u8], at: usize) {
    let mut s = [0u8; 64];
    let n = cases::bytes_at(line, 3, &mut s);
    le::copy(f, at, le::part(&s, 0, n));
}

// A number, or after a writer what the file holds.
pub(crate) fn answer(k: u8, f: &[u8], a: u64) {
    let at = a as usize;
    match k {
        0..=6 => cases::bytes(f),
        7 => cases::hex(u64::from(le::byte_at(f, at))),
        8 => cases::hex(u64::from(le::u16_at(f, at))),
        9 => cases::hex(u64::from(le::u32_at(f, at))),
        10 => cases::hex(le::u64_at(f, at)),
        _ => {}
    }
}
