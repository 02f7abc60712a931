// What becomes of a relocation, and a fixup's value.
ghost use Rattle.std.specs.Prelude.{◌≡◌};
ghost use Rattle.kinds.specs.Rows.{unpacked};
ghost use Rattle.homes.specs.Home.{word_home};
ghost use Rattle.fixups.specs.Outcome.{by_kind, fix_at, resolved, outcome_at};
ghost use Rattle.fixups.specs.Value.{is_relative, value_of};

use crate::{Fix, Outcome};
use arch::{RVA, VA};
use kinds::RelocationKind;
use targets::{Skip, Target};

#[tactic(auto, unfolding(crate::specs::Outcome::by_kind))]
fn by_kind(kind: RelocationKind, x: Fix) -> Outcome
    ensures { result ≡ by_kind kind x }
{
    match kind {
        RelocationKind::NotCarried => Outcome::Refused,
        RelocationKind::Unknown => Outcome::Skipped(Skip::NoType),
        _ => Outcome::Fixup(x),
    }
}

// Here the symbol has a target, so the type's row is unpacked.
#[tactic(auto, using(crate::proofs::Laws::fix_unpacked))]
fn fix_at(row: u8, place: RVA, target: RVA) -> Outcome
    ensures { result ≡ fix_at (unpacked row) place target }
{
    let t = kinds::unpack(row);
    let x = Fix {
        place,
        bits: t.bits,
        kind: t.kind,
        target,
        addend: t.addend,
    };
    by_kind(t.kind, x)
}

#[tactic(auto, using(crate::proofs::Laws::resolving))]
fn resolved(target: Target, row: u8, place: RVA) -> Outcome
    ensures { result ≡ resolved target (unpacked row) place }
{
    match target {
        Target::Home(o) | Target::Named(o) | Target::Slot(o) => fix_at(row, place, o),
        Target::Missing(k) => Outcome::Skipped(k),
        Target::Refused => Outcome::Refused,
    }
}

// What becomes of a relocation with that address field: `word` is what is kept of its section's home, `row` is its type's, g what its symbol comes to.
#[tactic(auto, using(crate::proofs::Laws::outcome_ways))]
pub fn outcome_at(word: u32, address: u32, row: u8, g: Target) -> Outcome
    ensures { result ≡ outcome_at (word_home word) address (unpacked row) g }
{
    if word == 0 {
        Outcome::Passed
    } else {
        let start = homes::word_start(word);
        resolved(g, row, RVA(start.0 + u64::from(address)))
    }
}

fn is_relative(kind: RelocationKind) -> bool
    ensures { result ≡ is_relative kind }
{
    matches!(kind, RelocationKind::Relative)
}

// What a fixup's place takes, in two's complement.
#[tactic(auto, using(crate::proofs::Laws::values))]
pub fn value(base: VA, x: Fix) -> u64
    ensures { result ≡ value_of base.0 x }
{
    let sum = x.target.0.wrapping_add(x.addend);
    if is_relative(x.kind) {
        sum.wrapping_sub(x.place.0)
    } else {
        sum.wrapping_add(base.0)
    }
}
