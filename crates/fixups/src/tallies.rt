// One pass over all relocations.
ghost use Rattle.std.specs.Prelude.{◌≡◌, ◌+◌, ◌*◌, ◌^◌, ◌<◌};
ghost use Rattle.object.specs.Section.{relocation_count};
ghost use Rattle.homes.specs.Home.{home_in};
ghost use Rattle.targets.specs.Table.{target_in};
ghost use Rattle.fixups.specs.declared.Outcome.TheVariants.{Fixup};
ghost use Rattle.fixups.specs.Outcome.{outcome};
ghost use Rattle.fixups.specs.Tally.{is_mapped, tally_of};
ghost use Rattle.fixups.specs.Tallying.{tallied, passed_by, row_to, AtMost, Counted};

use crate::{Fix, Outcome, Resolver, Tally, resolver};
use arch::{Arch, PAGE_SIZE};
use object::Header;

// A fixup's bytes lie in the first `pages` pages.
fn is_mapped(pages: u32, x: Fix) -> bool
    ensures { result ≡ is_mapped pages x }
{
    util::within(x.place.0, x.bits / 8, PAGE_SIZE * u64::from(pages))
}

#[tactic(auto, using(crate::proofs::Rows::withs))]
fn with_fixup(pages: u32, t: Tally, x: Fix) -> Tally
    requires { AtMost t (2 ^ 60) }
    ensures { result ≡ tallied pages t (Fixup x) }
{
    let t = Tally {
        fixups: t.fixups + 1,
        ..t
    };
    if is_mapped(pages, x) {
        t
    } else {
        Tally {
            outside: t.outside + 1,
            ..t
        }
    }
}

#[tactic(auto, using(crate::proofs::Rows::withs))]
fn with_outcome(pages: u32, t: Tally, o: Outcome) -> Tally
    requires { AtMost t (2 ^ 60) }
    ensures { result ≡ tallied pages t o }
{
    match o {
        Outcome::Passed => Tally {
            passed: t.passed + 1,
            ..t
        },
        Outcome::Skipped(_) => Tally {
            skips: t.skips + 1,
            ..t
        },
        Outcome::Refused => Tally {
            refused: t.refused + 1,
            ..t
        },
        Outcome::Fixup(x) => with_fixup(pages, t, x),
    }
}

// With n that are passed.
fn with_passed(t: Tally, n: u32) -> Tally
    requires { AtMost t (2 ^ 60) }
    ensures { result ≡ passed_by t n }
{
    Tally {
        passed: t.passed + u64::from(n),
        ..t
    }
}

// The records of section i, one by one, behind those that t counts.
#[tactic(auto, using(crate::proofs::Rows::section_loop, crate::proofs::Rows::row_within))]
fn with_section(r: Resolver, pages: u32, t: Tally, i: u32) -> Tally
    requires { (i < 2 ^ 16) × AtMost t (2 ^ 32 * i) }
    ensures { Counted (row_to pages (outcome r.entry.arch r.entry.file.now r.entry.header (home_in r.entry.homes.now) (target_in r.entry.homes.now r.entry.undef r.entry.codes.now)) i t (relocation_count r.entry.file.now r.entry.header i)) i result }
{
    let records = object::records_of(r.file, r.header, i);
    let word = le::word_at(r.homes, i as usize);
    let mut sum = t;
    for k in 0..records.count {
        sum = with_outcome(pages, sum, r.outcome_of(records, word, k));
    }
    sum
}

// The relocations of section i behind those that t counts: without a home all are passed, and none is read.
#[tactic(auto, using(crate::proofs::Rows::homeless))]
fn with_next(r: Resolver, pages: u32, t: Tally, i: u32) -> Tally
    requires { (i < 2 ^ 16) × AtMost t (2 ^ 32 * i) }
    ensures { Counted (row_to pages (outcome r.entry.arch r.entry.file.now r.entry.header (home_in r.entry.homes.now) (target_in r.entry.homes.now r.entry.undef r.entry.codes.now)) i t (relocation_count r.entry.file.now r.entry.header i)) i result }
{
    if le::word_at(r.homes, i as usize) == 0 {
        with_passed(t, object::relocation_count(r.file, r.header, i))
    } else {
        with_section(r, pages, t, i)
    }
}

// The sections one by one.
#[tactic(auto, using(crate::proofs::Rows::rows_loop))]
fn tally_with(r: Resolver, pages: u32) -> Tally
    ensures value { result ≡ tally_of pages (outcome r.entry.arch r.entry.file.now r.entry.header (home_in r.entry.homes.now) (target_in r.entry.homes.now r.entry.undef r.entry.codes.now)) (relocation_count r.entry.file.now r.entry.header) r.entry.header.sections }
    ensures at_most { AtMost result (2 ^ 48) }
{
    let mut sum = Tally {
        passed: 0,
        skips: 0,
        refused: 0,
        fixups: 0,
        outside: 0,
    };
    for i in 0..u32::from(r.header.sections) {
        sum = with_next(r, pages, sum, i);
    }
    sum
}

// How many relocations of the file come to each outcome; `pages` are mapped.
pub fn tally_of(
    arch: Arch,
    f: &[u8],
    h: Header,
    homes: &[u32],
    undef: u32,
    codes: &[u16],
    pages: u32,
) -> Tally
    ensures value { result ≡ tally_of pages (outcome arch f.now h (home_in homes.now) (target_in homes.now undef codes.now)) (relocation_count f.now h) h.sections }
    ensures at_most { AtMost result (2 ^ 48) }
{
    let r = Resolver {
        arch,
        types: resolver::types_of(arch),
        file: f,
        header: h,
        homes,
        undef,
        codes,
    };
    tally_with(r, pages)
}
