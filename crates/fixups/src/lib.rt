// What becomes of each relocation, from get_coff_fixups. Places and targets are offsets; the base enters in `value` alone.
#![tactic(auto)]

mod outcomes;
mod resolver;
mod tallies;

use arch::RVA;
use kinds::RelocationKind;
pub use outcomes::{outcome_at, value};
pub use resolver::{Resolver, types_of};
pub use tallies::tally_of;
use targets::Skip;

// A fixup before the base is known: the addend is in two's complement.
#[derive(Clone, Copy)]
pub struct Fix {
    pub place: RVA,
    pub bits: u64,
    pub kind: RelocationKind,
    pub target: RVA,
    pub addend: u64,
}

// What becomes of a relocation: each is passed, skipped for a reason, refused by 10, or a fixup of the list.
#[derive(Clone, Copy)]
pub enum Outcome {
    Passed,
    Skipped(Skip),
    Refused,
    Fixup(Fix),
}

// How many relocations came to each outcome, and how many fixups have a byte outside the mapped pages.
#[derive(Clone, Copy)]
pub struct Tally {
    pub passed: u64,
    pub skips: u64,
    pub refused: u64,
    pub fixups: u64,
    pub outside: u64,
}
