// The marks of mapped pages, from pagemap.rs: one bit a page, in 64-bit words. Asking for them, counting them, and putting those of the first pages.
#![tactic(auto)]

ghost use Rattle.std.specs.Prelude.{◌≡◌, ◌+◌, ◌-◌, ◌*◌, ◌%◌, ◌^◌, ◌<◌, count_ones};
ghost use Rattle.marks.specs.Marks.{WORD_PAGES, WORD_BYTES, words_for, word_at, marked, all_marked, page_count, mark_word, marks_put};

// Pages that a word marks.
pub const WORD_PAGES: u64 = 64;

// Bytes that a word has.
pub const WORD_BYTES: u64 = 8;

// The words that the marks of n pages take; no sum here has a limit of 64 bits.
pub fn words_for(n: u64) -> u64
    ensures { result ≡ words_for n }
{
    n.div_ceil(WORD_PAGES)
}

// Word w of the marks; one that would lie past what a number of 64 bits reaches is 0, as all past the end are.
#[tactic(auto, using(crate::proofs::Laws::word_is))]
fn word(marks: &[u8], w: u64) -> u64
    ensures { result ≡ word_at marks.now w }
{
    le::u64_at(marks, w.saturating_mul(WORD_BYTES) as usize)
}

// Whether page p is marked.
#[tactic(auto, using(crate::proofs::Laws::marked_is))]
pub fn marked(marks: &[u8], p: u64) -> bool
    ensures { result ≡ marked marks.now p }
{
    (word(marks, p / WORD_PAGES) >> (p % WORD_PAGES)) % 2 == 1
}

// Whether each page from `from` up to `to` is marked.
pub fn all_marked(marks: &[u8], from: u64, to: u64) -> bool
    ensures { result ≡ all_marked marks.now from to }
{
    (from..to).all(|p| marked(marks, p))
}

// The lowest n bits.
fn ones(n: u64) -> u64
    requires { n < WORD_PAGES }
    ensures { result ≡ 2 ^ n - 1 }
{
    (1 << n) - 1
}

// Whether each page of word w is marked.
#[tactic(auto, using(crate::proofs::Laws::word_marked))]
fn word_marked(marks: &[u8], w: u64) -> bool
    ensures { result ≡ all_marked marks.now (WORD_PAGES * w) (WORD_PAGES * w + WORD_PAGES) }
{
    word(marks, w) == u64::MAX
}

// Whether each of its n lowest pages is.
#[tactic(auto, using(crate::proofs::Laws::low_marked))]
fn low_marked(marks: &[u8], w: u64, n: u64) -> bool
    requires { n < WORD_PAGES }
    ensures { result ≡ all_marked marks.now (WORD_PAGES * w) (WORD_PAGES * w + n) }
{
    let low = ones(n);
    word(marks, w) & low == low
}

// Whether each page of the first n words is.
fn words_marked(marks: &[u8], n: u64) -> bool
    ensures { result ≡ all_marked marks.now 0 (WORD_PAGES * n) }
{
    (0..n).all(|w| word_marked(marks, w))
}

// Whether each of the first pages is marked, a word at a time.
#[tactic(auto, using(crate::proofs::Laws::first_ways))]
pub fn first_marked(marks: &[u8], pages: u64) -> bool
    ensures { result ≡ all_marked marks.now 0 pages }
{
    let n = pages / WORD_PAGES;
    words_marked(marks, n) && low_marked(marks, n, pages % WORD_PAGES)
}

// How many pages word w marks.
fn ones_at(marks: &[u8], w: u64) -> u64
    ensures { result ≡ count_ones (word_at marks.now w) }
{
    u64::from(word(marks, w).count_ones())
}

// The number of mapped pages, as the marks say it: the ones of each word, summed. Past 64 bits it wraps; that takes 2 ^ 61 bytes of marks.
#[tactic(auto, using(crate::proofs::Laws::count_loop), unfolding(crate::specs::Marks::page_count))]
pub fn page_count(marks: &[u8]) -> u64
    ensures { result ≡ page_count marks.now % 2 ^ 64 }
{
    let mut sum: u64 = 0;
    for w in 0..marks.len() as u64 / WORD_BYTES {
        sum = sum.wrapping_add(ones_at(marks, w));
    }
    sum
}

// Word w of the marks of the first pages: ones for those that are left for it.
#[tactic(auto, using(crate::proofs::Laws::mark_ways))]
fn mark_word(pages: u32, w: u32) -> u64
    ensures { result ≡ mark_word pages w }
{
    let left = u64::from(pages).saturating_sub(WORD_PAGES * u64::from(w));
    if WORD_PAGES <= left {
        u64::MAX
    } else {
        ones(left)
    }
}

// Marks the first pages: their words go to the front.
#[tactic(auto, using(crate::proofs::Laws::marks_loop))]
pub fn put_marks(pages: u32, marks: &mut [u8])
    ensures { marks.new ≡ marks_put pages marks.old }
{
    for w in 0..words_for(u64::from(pages)) as u32 {
        le::put_u64(
            marks,
            (WORD_BYTES * u64::from(w)) as usize,
            mark_word(pages, w),
        );
    }
}
