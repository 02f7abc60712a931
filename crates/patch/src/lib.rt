// Patch: the fixups of a portion of the list, written over the image.
#![tactic(auto)]

mod answer;

ghost use Rattle.std.specs.Prelude.{◌≡◌, ◌+◌, ◌%◌, ◌^◌, ◌<◌, ◌≤◌, true, length};
ghost use Rattle.arch.specs.Page.{PAGE_SIZE};
ghost use Rattle.limits.specs.Records.{FIXUP_WORDS};
ghost use Rattle.words.specs.Words.{word_of};
ghost use Rattle.patch.specs.Fixes.{WIDE_BYTES, fix_count, place_at, bits_at, value_at, width_of, known_bits, fix_ok, fixed, fixed_from};
ghost use Rattle.patch.specs.Inside.{span_in, fix_in, portion_in, all_mapped};
ghost use Rattle.patch.specs.Patch.{portion, portion_ok, patch_code, Patches};

pub use answer::Progress;
use arch::{PAGE_SIZE, VA};
use limits::{FIXUP_BITS, FIXUP_BYTES, FIXUP_PLACE, FIXUP_VALUE, FIXUP_WORDS, WORD};
use refusal::Refusal;

// The bits of a narrow fixup and of a wide one, and the bytes that each covers.
const NARROW: u64 = 32;

const WIDE: u64 = 64;

const NARROW_BYTES: u64 = 4;

const WIDE_BYTES: u64 = 8;

// The records of a fix list.
pub fn fix_count(fixes: &[u8]) -> u64
    ensures { result ≡ fix_count fixes.now }
{
    (fixes.len() / FIXUP_BYTES) as u64
}

// Word w of record k: a part of a known length is read by one load.
#[tactic(auto, using(crate::proofs::Laws::word_read))]
fn word(fixes: &[u8], k: u64, w: u8) -> u64
    requires { (k < fix_count fixes.now) × (w < FIXUP_WORDS) }
    ensures { result ≡ word_of FIXUP_WORDS fixes.now k w }
{
    let at = WORD * (FIXUP_WORDS as usize * k as usize + w as usize);
    le::u64_at(&fixes[at..at + WORD], 0)
}

// Record k: the address of its place, its bits, its value.
fn place_at(fixes: &[u8], k: u64) -> VA
    requires { k < fix_count fixes.now }
    ensures { result.0 ≡ place_at fixes.now k }
{
    VA(word(fixes, k, FIXUP_PLACE))
}

fn bits_at(fixes: &[u8], k: u64) -> u64
    requires { k < fix_count fixes.now }
    ensures { result ≡ bits_at fixes.now k }
{
    word(fixes, k, FIXUP_BITS)
}

fn value_at(fixes: &[u8], k: u64) -> u64
    requires { k < fix_count fixes.now }
    ensures { result ≡ value_at fixes.now k }
{
    word(fixes, k, FIXUP_VALUE)
}

// The bytes that it covers.
#[tactic(auto, using(util::specs::Pick::picks))]
fn width_of(bits: u64) -> u64
    ensures is { result ≡ width_of bits }
    ensures most { result ≤ WIDE_BYTES }
{
    match bits {
        NARROW => NARROW_BYTES,
        _ => WIDE_BYTES,
    }
}

// A width that there is.
fn known_bits(bits: u64) -> bool
    ensures { result ≡ known_bits bits }
{
    matches!(bits, NARROW | WIDE)
}

// Fixup k can be applied: its width is known, and all its bytes are mapped.
#[tactic(auto, unfolding(crate::specs::Fixes::fix_ok))]
fn fix_ok(size: u64, marks: &[u8], base: VA, fixes: &[u8], k: u64) -> bool
    requires { k < fix_count fixes.now }
    ensures { result ≡ fix_ok size marks.now base.0 fixes.now k }
{
    let bits = bits_at(fixes, k);
    known_bits(bits)
        && aspace::absolute::span_at(size, marks, base, place_at(fixes, k), width_of(bits))
}

// Each of the n fixups from p on can be applied, by the marks of its own pages.
#[tactic(auto, using(util::specs::Prefix::all_loop))]
fn portion_mapped(size: u64, marks: &[u8], base: VA, fixes: &[u8], p: u64, n: u64) -> bool
    requires { p + n ≤ fix_count fixes.now }
    ensures { result ≡ portion_ok size marks.now base.0 fixes.now p n }
{
    for i in 0..n {
        if !fix_ok(size, marks, base, fixes, p + i) {
            return false;
        }
    }
    true
}

// The n bytes from the address `a` lie in the image; an address below the base wraps past it.
#[tactic(auto, using(crate::proofs::Laws::span_is))]
fn span_in(size: u64, base: VA, a: VA, n: u64) -> bool
    requires room { n ≤ size }
    requires below { base.0 + size < 2 ^ 64 }
    ensures { result ≡ span_in size base.0 a.0 n }
{
    a.0.wrapping_sub(base.0) <= size - n
}

// Fixup k has a known width, and its bytes lie in the image.
#[tactic(auto, unfolding(crate::specs::Inside::fix_in))]
fn fix_in(size: u64, base: VA, fixes: &[u8], k: u64) -> bool
    requires { (k < fix_count fixes.now) × (WIDE_BYTES ≤ size) × (base.0 + size < 2 ^ 64) }
    ensures { result ≡ fix_in size base.0 fixes.now k }
{
    let bits = bits_at(fixes, k);
    known_bits(bits) && span_in(size, base, place_at(fixes, k), width_of(bits))
}

// Each of the n fixups from p on does.
#[tactic(auto, using(util::specs::Prefix::all_loop))]
fn portion_in(size: u64, base: VA, fixes: &[u8], p: u64, n: u64) -> bool
    requires { (p + n ≤ fix_count fixes.now) × (WIDE_BYTES ≤ size) × (base.0 + size < 2 ^ 64) }
    ensures { result ≡ portion_in size base.0 fixes.now p n }
{
    for i in 0..n {
        if !fix_in(size, base, fixes, p + i) {
            return false;
        }
    }
    true
}

// Every page of the image is marked, it has room for a fixup, and it ends below 2 ^ 64.
#[tactic(auto, unfolding(crate::specs::Inside::all_mapped))]
fn all_mapped(size: u64, marks: &[u8], base: VA) -> bool
    ensures { result ≡ all_mapped size marks.now base.0 }
{
    WIDE_BYTES <= size && size <= u64::MAX - base.0 && marks::first_marked(marks, size / PAGE_SIZE)
}

// Each of the n fixups from p on can be applied. The marks are looked at once for all of them if there are no more words of marks than fixups.
#[tactic(auto, using(crate::proofs::Laws::quick_ways))]
fn portion_ok(size: u64, marks: &[u8], base: VA, fixes: &[u8], p: u64, n: u64) -> bool
    requires { (p + n ≤ fix_count fixes.now) × (size % PAGE_SIZE ≡ 0) }
    ensures { result ≡ portion_ok size marks.now base.0 fixes.now p n }
{
    if marks::words_for(size / PAGE_SIZE) <= n && all_mapped(size, marks, base) {
        portion_in(size, base, fixes, p, n)
    } else {
        portion_mapped(size, marks, base, fixes, p, n)
    }
}

// The fixup's bytes go to its place.
#[tactic(auto, using(crate::proofs::Laws::apply_ways))]
fn apply(base: VA, fixes: &[u8], k: u64, image: &mut [u8])
    requires { (k < fix_count fixes.now) × (fix_in (length image.old) base.0 fixes.now k ≡ true) }
    ensures { image.new ≡ fixed base.0 fixes.now image.old k }
{
    let at = (place_at(fixes, k).0 - base.0) as usize;
    let value = value_at(fixes, k);
    if bits_at(fixes, k) == NARROW {
        let low = (value % 0x100000000) as u32;
        image[at..at + NARROW_BYTES as usize].copy_from_slice(&low.to_le_bytes());
    } else {
        image[at..at + WIDE_BYTES as usize].copy_from_slice(&value.to_le_bytes());
    }
}

// Those of the n fixups from p on, in list order.
#[tactic(auto, using(crate::proofs::Laws::from_loop))]
fn apply_portion(base: VA, fixes: &[u8], p: u64, n: u64, image: &mut [u8])
    requires { (p + n ≤ fix_count fixes.now) × (portion_in (length image.old) base.0 fixes.now p n ≡ true) }
    ensures { image.new ≡ fixed_from base.0 fixes.now image.old p n }
{
    for k in 0..n {
        apply(base, fixes, p + k, image);
    }
}

// How many fixups a portion has: as many as asked for, or all that are left.
fn portion_of(count: u64, number: u64, position: u64) -> u64
    requires { position ≤ count }
    ensures { result ≡ portion count number position }
{
    number.min(count - position)
}

// 14, 13 and 15, all before the first byte is written.
#[tactic(auto, using(crate::proofs::Laws::code_ways, util::specs::Pick::picks), unfolding(crate::specs::Patch::patch_code))]
fn patch_code(
    size: u64,
    marks: &[u8],
    base: VA,
    fixes: &[u8],
    number: u64,
    position: u64,
) -> Result<(), Refusal>
    ensures { result ≡ patch_code size marks.now base.0 fixes.now number position }
{
    let count = fix_count(fixes);
    if count < position {
        return Err(Refusal::Position);
    }
    if !pagemap::storage_ok(size, marks.len() as u64) {
        return Err(Refusal::Storage);
    }
    let n = portion_of(count, number, position);
    if !portion_ok(size, marks, base, fixes, position, n) {
        return Err(Refusal::NotMapped);
    }
    Ok(())
}

// Applies `number` fixups of the list from `position` on, or all that are left.
#[tactic(auto, using(crate::proofs::Laws::patch_ways))]
pub fn patch(
    base: VA,
    image: &mut [u8],
    marks: &[u8],
    fixes: &[u8],
    number: u64,
    position: u64,
) -> Result<Progress, Refusal>
    ensures { Patches base.0 marks.now fixes.now number position image.old image.new result }
{
    patch_code(image.len() as u64, marks, base, fixes, number, position)?;
    let count = fix_count(fixes);
    let n = portion_of(count, number, position);
    apply_portion(base, fixes, position, n, image);
    let next = position + n;
    Ok(Progress {
        position: next,
        done: next == count,
    })
}
