// The tables of fixups and of skips that load writes, as bytes: one pass over all relocations.
#![tactic(auto)]

ghost use Rattle.std.specs.Prelude.{◌≡◌, ◌*◌, ◌^◌, ◌<◌, ◌≤◌};
ghost use Rattle.object.specs.Section.{relocation_count};
ghost use Rattle.le.specs.Le.{splice};
ghost use Rattle.limits.specs.Records.{FIXUP_BYTES, SKIP_BYTES};
ghost use Rattle.homes.specs.Home.{home_in};
ghost use Rattle.targets.specs.Table.{target_in};
ghost use Rattle.fixups.specs.Outcome.{outcome};
ghost use Rattle.fixups.specs.Lists.{over_records};
ghost use Rattle.words.specs.Words.{word_bytes};
ghost use Rattle.lists.specs.Relocations.{
  fix_words,
  skip_words,
  fix_bytes,
  skip_bytes,
  fix_bytes_at,
  skip_bytes_at,
  fix_table,
  skip_table,
  Step,
  BothWritten,
};

use arch::{Arch, VA};
use fixups::{Fix, Outcome, Resolver};
use object::Header;
use targets::Skip;

// How many records there are of fixups and of skips.
#[derive(Clone, Copy)]
struct Rows {
    fixups: u64,
    skips: u64,
}

// A fixup's record, at place n of the table.
#[tactic(auto, using(crate::proofs::Laws::fix_put))]
fn put_fix(base: VA, x: Fix, n: u64, b: &mut [u8])
    requires { n < 2 ^ 50 }
    ensures { b.new ≡ splice b.old (FIXUP_BYTES * n) (word_bytes (fix_words base.0 x)) }
{
    let place = base.0.wrapping_add(x.place.0);
    let ws = [place, x.bits, fixups::value(base, x)];
    words::put(b, limits::FIXUP_BYTES * (n as usize), &ws);
}

#[tactic(auto, using(crate::proofs::Laws::skip_put))]
fn put_skip(i: u32, k: u32, s: Skip, n: u64, b: &mut [u8])
    requires { n < 2 ^ 50 }
    ensures { b.new ≡ splice b.old (SKIP_BYTES * n) (word_bytes (skip_words i k s)) }
{
    let ws = [u64::from(i) + 1, u64::from(k), u64::from(s)];
    words::put(b, limits::SKIP_BYTES * (n as usize), &ws);
}

// What record k of section i came to goes behind p's records.
#[tactic(auto, using(crate::proofs::Laws::outcome_steps))]
fn put_outcome(
    base: VA,
    i: u32,
    k: u32,
    o: Outcome,
    p: Rows,
    fixups: &mut [u8],
    skips: &mut [u8],
) -> Rows
    requires { (p.fixups < 2 ^ 50) × (p.skips < 2 ^ 50) }
    ensures { Step p (fix_bytes base.0 o) (skip_bytes i k o) fixups.old fixups.new skips.old skips.new result 1 }
{
    match o {
        Outcome::Passed | Outcome::Refused => p,
        Outcome::Skipped(s) => {
            put_skip(i, k, s, p.skips, skips);
            Rows {
                skips: p.skips + 1,
                ..p
            }
        }
        Outcome::Fixup(x) => {
            put_fix(base, x, p.fixups, fixups);
            Rows {
                fixups: p.fixups + 1,
                ..p
            }
        }
    }
}

// The records of section i, one by one.
#[tactic(auto, using(crate::proofs::Laws::row_none, crate::proofs::Laws::row_room, crate::proofs::Laws::read_again, crate::proofs::Laws::read_end))]
fn write_section(
    r: Resolver,
    base: VA,
    i: u32,
    p: Rows,
    fixups: &mut [u8],
    skips: &mut [u8],
) -> Rows
    requires { (i < 2 ^ 16) × (p.fixups ≤ 2 ^ 32 * i) × (p.skips ≤ 2 ^ 32 * i) }
    ensures { Step p
        (over_records (fix_bytes_at base.0 (outcome r.entry.arch r.entry.file.now r.entry.header (home_in r.entry.homes.now) (target_in r.entry.homes.now r.entry.undef r.entry.codes.now))) i (relocation_count r.entry.file.now r.entry.header i))
        (over_records (skip_bytes_at (outcome r.entry.arch r.entry.file.now r.entry.header (home_in r.entry.homes.now) (target_in r.entry.homes.now r.entry.undef r.entry.codes.now))) i (relocation_count r.entry.file.now r.entry.header i))
        fixups.old fixups.new skips.old skips.new result (2 ^ 32) }
{
    let records = object::records_of(r.file, r.header, i);
    let word = le::word_at(r.homes, i as usize);
    let mut q = p;
    for k in 0..records.count {
        let o = r.outcome_of(records, word, k);
        q = put_outcome(base, i, k, o, q, fixups, skips);
    }
    q
}

// The records of section i: without a home all are passed, and none is read.
#[tactic(auto, using(crate::proofs::Laws::no_rows))]
fn write_next(r: Resolver, base: VA, i: u32, p: Rows, fixups: &mut [u8], skips: &mut [u8]) -> Rows
    requires { (i < 2 ^ 16) × (p.fixups ≤ 2 ^ 32 * i) × (p.skips ≤ 2 ^ 32 * i) }
    ensures { Step p
        (over_records (fix_bytes_at base.0 (outcome r.entry.arch r.entry.file.now r.entry.header (home_in r.entry.homes.now) (target_in r.entry.homes.now r.entry.undef r.entry.codes.now))) i (relocation_count r.entry.file.now r.entry.header i))
        (over_records (skip_bytes_at (outcome r.entry.arch r.entry.file.now r.entry.header (home_in r.entry.homes.now) (target_in r.entry.homes.now r.entry.undef r.entry.codes.now))) i (relocation_count r.entry.file.now r.entry.header i))
        fixups.old fixups.new skips.old skips.new result (2 ^ 32) }
{
    if le::word_at(r.homes, i as usize) == 0 {
        p
    } else {
        write_section(r, base, i, p, fixups, skips)
    }
}

// The sections one by one.
#[tactic(auto, using(crate::proofs::Laws::rows_none, crate::proofs::Laws::rows_again, crate::proofs::Laws::rows_end))]
fn write_with(r: Resolver, base: VA, fixups: &mut [u8], skips: &mut [u8])
    ensures { BothWritten
        (fix_table base.0 (outcome r.entry.arch r.entry.file.now r.entry.header (home_in r.entry.homes.now) (target_in r.entry.homes.now r.entry.undef r.entry.codes.now)) (relocation_count r.entry.file.now r.entry.header) r.entry.header.sections)
        (skip_table (outcome r.entry.arch r.entry.file.now r.entry.header (home_in r.entry.homes.now) (target_in r.entry.homes.now r.entry.undef r.entry.codes.now)) (relocation_count r.entry.file.now r.entry.header) r.entry.header.sections)
        fixups.old fixups.new skips.old skips.new }
{
    let mut q = Rows {
        fixups: 0,
        skips: 0,
    };
    for i in 0..u32::from(r.header.sections) {
        q = write_next(r, base, i, q, fixups, skips);
    }
}

// All fixups and all skips, in section and record order.
pub fn write_relocations(
    arch: Arch,
    f: &[u8],
    h: Header,
    homes: &[u32],
    undef: u32,
    codes: &[u16],
    base: VA,
    fixups: &mut [u8],
    skips: &mut [u8],
)
    ensures { BothWritten
        (fix_table base.0 (outcome arch f.now h (home_in homes.now) (target_in homes.now undef codes.now)) (relocation_count f.now h) h.sections)
        (skip_table (outcome arch f.now h (home_in homes.now) (target_in homes.now undef codes.now)) (relocation_count f.now h) h.sections)
        fixups.old fixups.new skips.old skips.new }
{
    let r = Resolver {
        arch,
        types: fixups::types_of(arch),
        file: f,
        header: h,
        homes,
        undef,
        codes,
    };
    write_with(r, base, fixups, skips);
}
