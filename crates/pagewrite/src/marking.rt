// The marks of pages that are mapped: one bit each.
ghost use Rattle.std.specs.Prelude.{◌≡◌, ◌+◌, ◌<◌, ◌^◌};
ghost use Rattle.pagewrite.specs.Marking.{mark_page, mark_pages};

use marks::{WORD_BYTES, WORD_PAGES};

// Sets page p's bit.
#[tactic(auto, using(crate::proofs::Laws::mark_is))]
fn mark(marks: &mut [u8], p: u64)
    ensures { marks.new ≡ mark_page marks.old p }
{
    let at = (WORD_BYTES * (p / WORD_PAGES)) as usize;
    let word = le::u64_at(marks, at);
    le::put_u64(marks, at, word | (1 << (p % WORD_PAGES)));
}

// Sets the bits of the n pages from p on.
#[tactic(auto, using(crate::proofs::Laws::pages_loop))]
pub(crate) fn mark_pages(marks: &mut [u8], p: u64, n: u64)
    requires { p + n < 2 ^ 64 }
    ensures { marks.new ≡ mark_pages marks.old p n }
{
    for q in p..p + n {
        mark(marks, q);
    }
}
