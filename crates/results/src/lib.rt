// The results of survey, load, patch and the routine question as records of words.
#![tactic(auto)]

ghost use Rattle.std.specs.Prelude.{◌≡◌};
ghost use Rattle.le.specs.Le.{splice};
ghost use Rattle.words.specs.Words.{word_bytes};
ghost use Rattle.results.specs.Results.{counts_words, progress_words, routine_words};

use survey::Counts;

// The counts, ten words.
pub fn write_counts(c: Counts, b: &mut [u8])
    ensures { b.new ≡ splice b.old 0 (word_bytes (counts_words c)) }
{
    let ws = [
        c.pages,
        c.sections,
        c.symbols,
        c.externs,
        c.fixups,
        c.skips,
        c.passed,
        c.file_sections,
        c.symbol_records,
        c.relocations,
    ];
    words::put(b, 0, &ws);
}

// Where a portion ended, and whether the list did: two words.
#[tactic(auto, using(crate::proofs::Laws::progress_put))]
pub fn write_progress(position: u64, done: bool, b: &mut [u8])
    ensures { b.new ≡ splice b.old 0 (word_bytes (progress_words position done)) }
{
    let ws = [position, u64::from(done)];
    words::put(b, 0, &ws);
}

// A symbol's number in the list, and how far behind it the address lies: two words.
pub fn write_routine(symbol: u64, distance: u64, b: &mut [u8])
    ensures { b.new ≡ splice b.old 0 (word_bytes (routine_words symbol distance)) }
{
    let ws = [symbol, distance];
    words::put(b, 0, &ws);
}
