// A load of sixteen pages at most, and the actions on it.
use crate::{act, say};
use arch::VA;
use refusal::Refusal;
use storage::Lent;
use survey::Counts;

// What stands in every byte before.
const PATTERN: u8 = 0xA5;

// The line asks for the load; the actions follow it in the text.
#[tactic(auto, using(crate::proofs::Laws::same_long))]
pub(crate) fn at(line: &[u8], base: u64, f: &[u8], text: &[u8], from: usize) {
    let mut image = [PATTERN; 65536];
    let mut marks = [PATTERN; 8192];
    let mut sections = [PATTERN; 8192];
    let mut symbols = [PATTERN; 8192];
    let mut externs = [PATTERN; 8192];
    let mut fixups = [PATTERN; 8192];
    let mut skips = [PATTERN; 8192];
    let mut lent = Lent {
        image: &mut image,
        marks: &mut marks,
        sections: &mut sections,
        symbols: &mut symbols,
        externs: &mut externs,
        fixups: &mut fixups,
        skips: &mut skips,
    };
    let s = load::load(f, VA(base), &mut lent);
    act::all(
        text,
        from,
        f,
        base,
        counts(line, s),
        &mut image,
        &marks,
        &sections,
        &symbols,
        &externs,
        &fixups,
        &skips,
    );
}

// What was counted, written behind the line; nothing of an object that is refused.
fn counts(line: &[u8], s: Result<Counts, Refusal>) -> Counts {
    say::counted_by(line, s);
    s.unwrap_or_default()
}
