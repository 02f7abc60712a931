// The actions on a load, a line each.
use crate::say;
use arch::VA;
use listing::Tables;
use survey::Counts;
use text::Writer;

const TABLES: u8 = 0;

const PATCH: u8 = 1;

const LAST: u8 = 9;

// Up to the first line that is none.
pub(crate) fn all(
    text: &[u8],
    from: usize,
    f: &[u8],
    base: u64,
    c: Counts,
    image: &mut [u8],
    marks: &[u8],
    sections: &[u8],
    symbols: &[u8],
    externs: &[u8],
    fixups: &[u8],
    skips: &[u8],
) {
    for with_end in text
        .get(from..)
        .unwrap_or(&[])
        .split_inclusive(|b| *b == b'\n')
    {
        let line = with_end.strip_suffix(b"\n").unwrap_or(with_end);
        let k = word(line);
        if k > LAST {
            return;
        }
        one(
            k, line, f, base, c, image, marks, sections, symbols, externs, fixups, skips,
        );
    }
}

// Which action a line is; above LAST it is none.
fn word(line: &[u8]) -> u8 {
    cases::place(
        cases::word(line, 0),
        b"tables patch symbols symbol-numbers externs extern-numbers laid marks read routine ",
    )
}

fn one(
    k: u8,
    line: &[u8],
    f: &[u8],
    base: u64,
    c: Counts,
    image: &mut [u8],
    marks: &[u8],
    sections: &[u8],
    symbols: &[u8],
    externs: &[u8],
    fixups: &[u8],
    skips: &[u8],
) {
    match k {
        TABLES => tables(f, base, c, sections, symbols, externs, fixups, skips),
        PATCH => patch(line, base, c, image, marks, fixups),
        _ => ask(k, line, base, c, image, marks, sections, symbols, externs),
    }
}

// The lines of load's tables.
fn tables(
    f: &[u8],
    base: u64,
    c: Counts,
    sections: &[u8],
    symbols: &[u8],
    externs: &[u8],
    fixups: &[u8],
    skips: &[u8],
) {
    for k in 0..cases::few(listing::line_count(c)) {
        table_line(
            f, base, c, sections, symbols, externs, fixups, skips, k as u32,
        );
    }
}

// No line of the input is longer than the buffer.
fn table_line(
    f: &[u8],
    base: u64,
    c: Counts,
    sections: &[u8],
    symbols: &[u8],
    externs: &[u8],
    fixups: &[u8],
    skips: &[u8],
    k: u32,
) {
    let mut line = [0u8; 16384];
    let mut out = Writer {
        out: &mut line,
        at: 0,
    };
    let tables = Tables {
        file: f,
        counts: c,
        sections,
        symbols,
        externs,
        fixups,
        skips,
    };
    tables.line(VA(base), k, &mut out);
    cases::text(out.written());
}

// `patch NUMBER POSITION`
fn patch(line: &[u8], base: u64, c: Counts, image: &mut [u8], marks: &[u8], fixups: &[u8]) {
    let list = le::part(
        fixups,
        0,
        cases::few(c.fixups) as usize * limits::FIXUP_BYTES,
    );
    let number = cases::number_at(line, 1);
    let position = cases::number_at(line, 2);
    let answer = patch::patch(VA(base), image, marks, list, number, position);
    say::patched(line, answer, image, c.pages);
}

fn ask(
    k: u8,
    line: &[u8],
    base: u64,
    c: Counts,
    image: &[u8],
    marks: &[u8],
    sections: &[u8],
    symbols: &[u8],
    externs: &[u8],
) {
    cases::text(line);
    match k {
        2..=3 => say::rows(k, symbols, cases::few(c.symbols)),
        4..=5 => say::rows(k, externs, cases::few(c.externs)),
        6 => say::laid(image, c.pages),
        7 => say::rows(k, marks, say::words(c.pages)),
        8 => read(line, base, say::counted(image, c.pages), marks),
        _ => routine(line, c, sections, symbols),
    }
    cases::end();
}

// `routine ADDRESS`, asked of the counted parts of the tables.
fn routine(line: &[u8], c: Counts, sections: &[u8], symbols: &[u8]) {
    let s = le::part(
        sections,
        0,
        cases::few(c.sections) as usize * limits::SECTION_BYTES,
    );
    let y = le::part(
        symbols,
        0,
        cases::few(c.symbols) as usize * limits::SYMBOL_BYTES,
    );
    say::routine(module::routine_in(s, y, VA(cases::number_at(line, 1))));
}

// `read ADDRESS LENGTH`; no read of the input is longer than the buffer.
fn read(line: &[u8], base: u64, image: &[u8], marks: &[u8]) {
    let mut buffer = [0u8; 65536];
    into(line, base, image, marks, &mut buffer);
}

fn into(line: &[u8], base: u64, image: &[u8], marks: &[u8], buffer: &mut [u8]) {
    let address = VA(cases::number_at(line, 1));
    let n = buffer.len().min(cases::number_at(line, 2) as usize);
    match aspace::absolute::read_into(image, marks, VA(base), address, &mut buffer[..n]) {
        Err(r) => cases::refused(r.number()),
        Ok(()) => say::crc(&buffer[..n]),
    }
}
