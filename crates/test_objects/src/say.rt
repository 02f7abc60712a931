// What stands behind a line.
ghost use Rattle.std.specs.Prelude.{◌<◌, ◌^◌};

use limits::{EXTERN_BYTES, EXTERN_NUMBER, SYMBOL_BYTES, SYMBOL_HOME, SYMBOL_NUMBER, WORD};
use nearest::Routine;
use patch::Progress;
use refusal::Refusal;
use survey::Counts;

// A line with survey's answer, or load's.
pub(crate) fn counted_by(line: &[u8], answer: Result<Counts, Refusal>) {
    cases::text(line);
    match answer {
        Ok(c) => counts(c),
        Err(r) => cases::refused(r.number()),
    }
    cases::end();
}

fn counts(c: Counts) {
    cases::text(b" counts");
    cases::decimal(c.pages);
    cases::decimal(c.sections);
    cases::decimal(c.symbols);
    cases::decimal(c.externs);
    cases::decimal(c.fixups);
    cases::decimal(c.skips);
    cases::decimal(c.passed);
    cases::decimal(c.file_sections);
    cases::decimal(c.symbol_records);
    cases::decimal(c.relocations);
}

// A number for each record of a table, by the action's number.
pub(crate) fn rows(k: u8, table: &[u8], n: u16) {
    for i in 0..n {
        row(k, table, i as usize);
    }
}

// Word w of the record at `at`.
fn word(table: &[u8], at: usize, w: u8) -> u64
    requires { at < 2 ^ 32 }
{
    le::u64_at(table, at + WORD * w as usize)
}

// The number of a symbol and its home, or its number alone; the number of an extern name; a word of marks.
fn row(k: u8, table: &[u8], i: usize)
    requires { i < 65536 }
{
    match k {
        2 => {
            cases::decimal(word(table, i * SYMBOL_BYTES, SYMBOL_NUMBER));
            cases::part(b":", word(table, i * SYMBOL_BYTES, SYMBOL_HOME));
        }
        3 => cases::decimal(word(table, i * SYMBOL_BYTES, SYMBOL_NUMBER)),
        7 => cases::hex(le::u64_at(table, i * WORD)),
        _ => cases::decimal(word(table, i * EXTERN_BYTES, EXTERN_NUMBER)),
    }
}

// The words that hold the marks of so many pages.
pub(crate) fn words(pages: u64) -> u16 {
    cases::few(u64::from(cases::few(pages)).div_ceil(64))
}

// The image's counted part.
pub(crate) fn counted(image: &[u8], pages: u64) -> &[u8] {
    le::part(image, 0, cases::few(pages) as usize * 4096)
}

pub(crate) fn laid(image: &[u8], pages: u64) {
    cases::padded(cases::crc32(counted(image, pages)), 8);
}

pub(crate) fn patched(line: &[u8], answer: Result<Progress, Refusal>, image: &[u8], pages: u64) {
    cases::text(line);
    match answer {
        Err(r) => cases::refused(r.number()),
        Ok(p) => {
            cases::part(b" position ", p.position);
            cases::part(b" done ", u64::from(p.done));
            crc(counted(image, pages));
        }
    }
    cases::end();
}

pub(crate) fn routine(answer: Result<Routine, Refusal>) {
    match answer {
        Err(r) => cases::refused(r.number()),
        Ok(a) => {
            cases::part(b" symbol ", a.symbol);
            cases::part(b" distance ", a.distance);
        }
    }
}

pub(crate) fn crc(s: &[u8]) {
    cases::text(b" crc");
    cases::padded(cases::crc32(s), 8);
}
