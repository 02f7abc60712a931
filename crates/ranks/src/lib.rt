// The sections of a file in order of their names, by merging: a section is then found by its name in halves.
#![tactic(auto)]

ghost use Rattle.std.specs.Prelude.{◌≡◌, ℕ, ◌+◌, ◌*◌, ◌≤◌, ◌<◌, min, length, drop};
ghost use Rattle.le.specs.Le.{part, splice};
ghost use Rattle.names.specs.Name.{section_text};
ghost use Rattle.util.specs.Prefix.{list_to};
ghost use Rattle.limits.specs.Limits.{MAX_SECTIONS};
ghost use Rattle.ranks.specs.Rank.{tie_before, precedes, ranked, lateness, section_ranks};
ghost use Rattle.ranks.specs.RankLaws.{Climbs};
ghost use Rattle.ranks.specs.Merge.{rank_all, left_next, RunsClimb, RunsJoin};

use object::Header;
use std::cmp::Ordering;

#[tactic(auto, using(crate::proofs::Laws::late_ways))]
fn lateness(f: &[u8], h: Header, i: u16) -> u16
    ensures { result ≡ lateness f.now h i }
{
    if object::is_loaded(f, h, u32::from(i)) {
        0
    } else {
        1
    }
}

// Of equal names: the loaded first, then the lower number.
#[tactic(auto, using(crate::proofs::Laws::tie_ways))]
fn tie_before(f: &[u8], h: Header, i: u16, j: u16) -> bool
    ensures { result ≡ tie_before (lateness f.now h) i j }
{
    let a = lateness(f, h, i);
    let b = lateness(f, h, j);
    if a == b { i <= j } else { a < b }
}

// Section i does not stand behind section j.
#[tactic(auto, using(crate::proofs::Laws::precedes_ways))]
fn precedes(f: &[u8], h: Header, i: u16, j: u16) -> bool
    ensures { result ≡ precedes (section_text f.now h) (lateness f.now h) i j }
{
    match order::compare(
        f,
        names::section_span(f, h, u32::from(i)),
        names::section_span(f, h, u32::from(j)),
    ) {
        Ordering::Less => true,
        Ordering::Equal => tie_before(f, h, i, j),
        Ordering::Greater => false,
    }
}

// Of a from i on and b from j on: a[i] is next.
#[tactic(auto, using(crate::proofs::Laws::left_ways))]
fn left_next(f: &[u8], h: Header, a: &[u16], b: &[u16], i: usize, j: usize) -> bool
    ensures { result ≡ left_next (section_text f.now h) (lateness f.now h) (drop i a.now) (drop j b.now) }
{
    match (a.get(i), b.get(j)) {
        (Some(&x), Some(&y)) => precedes(f, h, x, y),
        (left, _) => left.is_some(),
    }
}

// Two lists in order as one.
// Two indices: each turn takes from one list or from the other.
fn merge(f: &[u8], h: Header, a: &[u16], b: &[u16], out: &mut [u16])
    requires { (length out.old ≡ length a.now + length b.now)
        × Climbs (section_text f.now h) (lateness f.now h) a.now
        × Climbs (section_text f.now h) (lateness f.now h) b.now }
    ensures { out.new ≡ rank_all (section_text f.now h) (lateness f.now h) a.now b.now }
{
    let n = out.len();
    let mut i = 0;
    let mut j = 0;
    while i + j < n {
        if left_next(f, h, a, b, i, j) {
            out[i + j] = a[i];
            i += 1;
        } else {
            out[i + j] = b[j];
            j += 1;
        }
    }
}

// Where the run of w from lo on ends: the last of n may be shorter.
fn run_end(lo: usize, w: usize, n: usize) -> usize
    requires { lo ≤ n }
    ensures { result ≡ min (lo + w) n }
{
    lo + w.min(n - lo)
}

// The two runs from lo on as one.
fn merge_runs(f: &[u8], h: Header, w: usize, lo: usize, a: &[u16], out: &mut [u16])
    requires { (length out.old ≡ length a.now)
        × (lo < length a.now)
        × Climbs (section_text f.now h) (lateness f.now h) (part a.now lo w)
        × Climbs (section_text f.now h) (lateness f.now h) (part a.now (lo + w) w) }
    ensures { out.new ≡ splice out.old lo (rank_all (section_text f.now h) (lateness f.now h) (part a.now lo w) (part a.now (lo + w) w)) }
{
    let n = a.len();
    let mid = run_end(lo, w, n);
    let hi = run_end(mid, w, n);
    merge(f, h, &a[lo..mid], &a[mid..hi], &mut out[lo..hi]);
}

// Each two runs of w as one.
// An index: it goes on by the width of two runs.
fn pass(f: &[u8], h: Header, w: usize, a: &[u16], out: &mut [u16])
    requires { (0 < w)
        × (w ≤ 2 * MAX_SECTIONS)
        × (length a.now ≤ MAX_SECTIONS)
        × (length out.old ≡ length a.now)
        × RunsClimb (section_text f.now h) (lateness f.now h) w a.now }
    ensures { RunsJoin (section_text f.now h) (lateness f.now h) w a.now out.new }
{
    let n = a.len();
    let mut lo = 0;
    while lo < n {
        merge_runs(f, h, w, lo, a, out);
        lo += 2 * w;
    }
}

// Runs of one number are in order. A pass to `spare` and one back make the runs four times as wide; where one run is all, a pass is a copy.
fn sort(f: &[u8], h: Header, a: &mut [u16], spare: &mut [u16])
    requires { (length a.old ≤ MAX_SECTIONS) × (length spare.old ≡ length a.old) }
    ensures { a.new ≡ ranked (section_text f.now h) (lateness f.now h) a.old }
{
    let n = a.len();
    let mut w = 1;
    while w < n {
        pass(f, h, w, a, spare);
        pass(f, h, 2 * w, spare, a);
        w = 2 * (2 * w);
    }
}

// The numbers from 0.
#[tactic(auto, using(crate::proofs::Laws::number_loop))]
fn number(a: &mut [u16])
    requires { length a.old ≤ MAX_SECTIONS }
    ensures { a.new ≡ list_to (λ (i : ℕ). i) (length a.old) }
{
    for i in 0..a.len() {
        a[i] = i as u16;
    }
}

// The numbers of all sections, from 0, in order; told where there is a place for each.
pub fn fill_ranks(f: &[u8], h: Header, ranks: &mut [u16])
    ensures { length ranks.old ≡ h.sections → h.sections ≤ MAX_SECTIONS → ranks.new ≡ section_ranks f.now h }
{
    let n = ranks.len();
    if n <= limits::MAX_SECTIONS {
        let mut spare = [0u16; limits::MAX_SECTIONS];
        number(ranks);
        sort(f, h, ranks, &mut spare[..n]);
    }
}
