// A survey's answer as a line.
use refusal::Refusal;
use survey::Counts;

pub(crate) fn answer(s: Result<Counts, Refusal>) {
    match s {
        Ok(c) => {
            counts(c);
            of_the_file(c);
        }
        Err(r) => part(b"refused ", r.number()),
    }
    io::write_all(1, b"\n");
}

fn counts(c: Counts) {
    part(b"pages ", c.pages);
    part(b" sections ", c.sections);
    part(b" symbols ", c.symbols);
    part(b" externs ", c.externs);
    part(b" fixups ", c.fixups);
    part(b" skips ", c.skips);
    part(b" passed ", c.passed);
}

fn of_the_file(c: Counts) {
    part(b" file sections ", c.file_sections);
    part(b" symbol records ", c.symbol_records);
    part(b" relocations ", c.relocations);
}

fn part(word: &[u8], n: u64) {
    io::write_all(1, word);
    io::print_decimal(1, n);
}
