// Which of its three outputs document 01's program prints for a file.
#![tactic(auto)]

mod answer;

ghost use Rattle.std.specs.Prelude.{◌≡◌};
ghost use Rattle.verdict.specs.Verdict.{fits, verdict_by, verdict_of};

pub use answer::Verdict;
use refusal::Refusal;
use survey::Counts;

// The most that it takes: file bytes, pages, file sections, symbol records, relocations.
const MOST_BYTES: usize = 16384;

const MOST_PAGES: u64 = 8;

const MOST_SECTIONS: u64 = 16;

const MOST_SYMBOLS: u64 = 128;

const MOST_RELOCATIONS: u64 = 128;

// Size comes before refusal, the other limits after it.
#[tactic(auto, using(crate::proofs::Laws::size_ways))]
pub fn verdict(f: &[u8]) -> Verdict
    ensures { result ≡ verdict_of f.now }
{
    if f.len() <= MOST_BYTES {
        verdict_by(survey::survey(f))
    } else {
        Verdict::TooLarge
    }
}

#[tactic(auto, using(crate::proofs::Laws::survey_ways))]
fn verdict_by(s: Result<Counts, Refusal>) -> Verdict
    ensures { result ≡ verdict_by s }
{
    match s {
        Err(r) => Verdict::Refused(r),
        Ok(c) if fits(c) => Verdict::Lines(c),
        Ok(_) => Verdict::TooLarge,
    }
}

#[tactic(auto, unfolding(crate::specs::Verdict::fits))]
fn fits(c: Counts) -> bool
    ensures { result ≡ fits c }
{
    c.pages <= MOST_PAGES
        && c.file_sections <= MOST_SECTIONS
        && c.symbol_records <= MOST_SYMBOLS
        && c.relocations <= MOST_RELOCATIONS
}
