// The characters of names, one behind another: what a section's name and a symbol's may hold.
#![tactic(auto)]

ghost use Rattle.std.specs.Prelude.{◌≡◌, false, ◌+◌, ◌≤◌, ◌<◌, length, get_or};
ghost use Rattle.chars.specs.Chars.{visible, all_visible, good_section_name, good_symbol_name, walk, stop};
ghost use Rattle.chars.specs.WalkLaws.{VisibleTo, VisibleRun};

// How many bytes one look takes, and how many must be left for it: a name in its field is too short to gain by it.
const EIGHT: usize = 8;

const ENOUGH: usize = 16;

// The least first byte of a character of several bytes.
const FIRST: u8 = 0xC2;

// A byte that every name may have.
fn is_visible(b: u8) -> bool
    ensures { result ≡ visible b }
{
    matches!(b, 0x21..=0x7E)
}

// Each of these bytes is visible; without a way out between them eight are compared at once.
fn all_visible(s: &[u8]) -> bool
    ensures { result ≡ all_visible s.now }
{
    s.iter().fold(true, |ok, b| ok & is_visible(*b))
}

// From i on, behind as many bytes before e as are visible eight by eight.
#[tactic(auto, using(crate::proofs::Laws::leap_loop))]
fn leap(t: &[u8], i: usize, e: usize) -> usize
    requires { (i ≤ e) × (i < e → e ≤ length t.now) }
    ensures { VisibleTo t.now i e result }
{
    // An index: it stops where fewer than ENOUGH are left, which is more than one look takes.
    let mut k = i;
    while ENOUGH <= e - k && all_visible(&t[k..k + EIGHT]) {
        k += EIGHT;
    }
    k
}

// From i on, behind the visible bytes before e, byte by byte.
#[tactic(auto, using(crate::proofs::Laws::run_loop))]
fn visible_by_one(t: &[u8], i: usize, e: usize) -> usize
    requires { (i ≤ e) × (i < e → e ≤ length t.now) }
    ensures { VisibleRun t.now i e result }
{
    for k in i..e {
        if !is_visible(t[k]) {
            return k;
        }
    }
    e
}

// The same, in a list that may be long.
#[tactic(auto, using(crate::proofs::Laws::run_parts))]
fn visible_to(t: &[u8], i: usize, e: usize) -> usize
    requires { (i ≤ e) × (i < e → e ≤ length t.now) }
    ensures { VisibleRun t.now i e result }
{
    visible_by_one(t, leap(t, i, e), e)
}

// Behind the characters of a symbol's name that follow one another from i on and begin before e.
#[tactic(auto, using(crate::proofs::Laws::on_loop))]
fn walk_on(t: &[u8], i: usize, e: usize) -> usize
    requires { i < e → e ≤ length t.now }
    ensures { result ≡ walk false t.now e i }
{
    // An index: a turn passes a run of bytes or a character of several.
    let mut k = i;
    while k < e {
        if is_visible(t[k]) {
            k = visible_to(t, k, e);
        } else {
            match utf8::long_char(&t[k..]) {
                0 => return k,
                c => k += c,
            }
        }
    }
    k
}

// The same of any name, from where its visible bytes end: most have no others.
#[tactic(auto, using(crate::proofs::Laws::behind_ways))]
fn walk_behind(t: &[u8], k: usize, e: usize, section: bool) -> usize
    requires { (k < e → e ≤ length t.now) × (k < e → visible (get_or t.now k 0) ≡ false) }
    ensures { result ≡ walk section t.now e k }
{
    if e <= k || t[k] < FIRST || section {
        k
    } else {
        walk_on(t, k, e)
    }
}

// Behind the characters that follow one another from i on and begin among the n places there; `section` says whose name they are.
#[tactic(auto, using(crate::proofs::Laws::from_ways))]
pub fn walk(t: &[u8], i: usize, n: usize, section: bool) -> usize
    ensures { result ≡ walk section t.now (i + n) i }
{
    let e = i + le::room(t.len(), i, n);
    walk_behind(t, visible_to(t, i, e), e, section)
}

// Where the characters from i on stop.
#[tactic(auto, using(crate::proofs::Laws::stop_ways))]
pub fn stop(t: &[u8], i: usize, section: bool) -> usize
    ensures { result ≡ stop section t.now i }
{
    let n = t.len();
    if n <= i {
        return i;
    }
    if section {
        walk_behind(t, visible_to(t, i, n), n, true)
    } else {
        walk_on(t, i, n)
    }
}

// Where those of a short list stop.
#[tactic(auto, using(crate::proofs::Laws::from_ways))]
pub fn stop_short(t: &[u8], section: bool) -> usize
    ensures { result ≡ stop section t.now 0 }
{
    let n = t.len();
    walk_behind(t, visible_by_one(t, 0, n), n, section)
}

// The rule for a section's name, which may be empty.
#[tactic(auto, using(crate::specs::GoodLaws::section_walk))]
pub fn good_section_name(s: &[u8]) -> bool
    ensures { result ≡ good_section_name s.now }
{
    s.len() <= stop(s, 0, true)
}

// The rule for a symbol's name, which may not.
#[tactic(auto, using(crate::specs::GoodLaws::symbol_walk))]
pub fn good_symbol_name(s: &[u8]) -> bool
    ensures { result ≡ good_symbol_name s.now }
{
    !s.is_empty() && s.len() <= stop(s, 0, false)
}
