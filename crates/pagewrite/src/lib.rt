// Page writes, from pagemap.rs: whole pages in lent storage, each marked as mapped. All that can be refused is tested before a byte or a mark changes.
#![tactic(auto)]

mod marking;
mod refusals;

ghost use Rattle.std.specs.Prelude.{◌≡◌, length, replicate, set as List·set};
ghost use Rattle.util.specs.Align.{round_up};
ghost use Rattle.arch.specs.Page.{PAGE_SIZE, page_of};
ghost use Rattle.le.specs.Le.{splice};
ghost use Rattle.refusal.specs.Refusal.{Leaves, LeavesBoth};
ghost use Rattle.pagemap.specs.Pages.{read_code};
ghost use Rattle.pagewrite.specs.Marking.{mark_pages};
ghost use Rattle.pagewrite.specs.PageWrite.{page_write_code, padded_write_code, whole_pages, padded_pages, padded, capacity_code};

use arch::{PAGE_SIZE, RVA};
use marking::mark_pages;
use refusal::Refusal;
use refusals::{capacity_code, padded_write_code, page_write_code};

// One byte at the given offset, which must be mapped: what the Rust does through `get_mut`.
#[tactic(auto, using(crate::proofs::Laws::read_byte, refusal::specs::Refusal::answers))]
pub fn set(image: &mut [u8], marks: &[u8], rva: RVA, v: u8) -> Result<(), Refusal>
    ensures { Leaves (read_code (length image.old) marks.now rva.0 1)
        image.old (List·set image.old rva.0 v) image.new result }
{
    pagemap::read_code(image.len() as u64, marks, rva, 1)?;
    image[rva.0 as usize] = v;
    Ok(())
}

// Maps the given items, whole pages of them, at the given offset.
#[tactic(auto, using(refusal::specs::Refusal::answers))]
pub fn write(image: &mut [u8], marks: &mut [u8], rva: RVA, items: &[u8]) -> Result<(), Refusal>
    ensures { LeavesBoth (page_write_code (length image.old) (length marks.old) rva.0 (length items.now))
        image.old (splice image.old rva.0 items.now) image.new
        marks.old (mark_pages marks.old (page_of rva.0) (whole_pages (length items.now))) marks.new result }
{
    let n = items.len() as u64;
    page_write_code(image.len() as u64, marks.len() as u64, rva, n)?;
    le::copy(image, rva.0 as usize, items);
    mark_pages(marks, rva.page(), n / PAGE_SIZE);
    Ok(())
}

// Maps pages of zeros, `size` bytes of them, at the given offset.
#[tactic(auto, using(refusal::specs::Refusal::answers))]
pub fn map_empty(image: &mut [u8], marks: &mut [u8], rva: RVA, size: u64) -> Result<(), Refusal>
    ensures { LeavesBoth (page_write_code (length image.old) (length marks.old) rva.0 size)
        image.old (splice image.old rva.0 (replicate size 0)) image.new
        marks.old (mark_pages marks.old (page_of rva.0) (whole_pages size)) marks.new result }
{
    page_write_code(image.len() as u64, marks.len() as u64, rva, size)?;
    le::zero(image, rva.0 as usize, size as usize);
    mark_pages(marks, rva.page(), size / PAGE_SIZE);
    Ok(())
}

// Maps the given items at the given offset and zeros to the end of their last page; a whole number of pages is followed by one of zeros.
#[tactic(auto, using(crate::proofs::Laws::padded_ways, refusal::specs::Refusal::answers))]
pub fn writezx(image: &mut [u8], marks: &mut [u8], rva: RVA, items: &[u8]) -> Result<(), Refusal>
    ensures { LeavesBoth (padded_write_code (length image.old) (length marks.old) rva.0 (length items.now))
        image.old (splice image.old rva.0 (padded items.now)) image.new
        marks.old (mark_pages marks.old (page_of rva.0) (padded_pages (length items.now))) marks.new result }
{
    let n = items.len() as u64;
    padded_write_code(image.len() as u64, marks.len() as u64, rva, n)?;
    let at = rva.0 as usize;
    let pages = n / PAGE_SIZE + 1;
    le::copy(image, at, items);
    le::zero(image, at + items.len(), (pages * PAGE_SIZE - n) as usize);
    mark_pages(marks, rva.page(), pages);
    Ok(())
}

// A map with nothing mapped, for offsets up to `capacity`: the marks are cleared.
#[tactic(auto, using(refusal::specs::Refusal::answers))]
pub fn with_capacity(image: &[u8], marks: &mut [u8], capacity: RVA) -> Result<(), Refusal>
    ensures { Leaves (capacity_code (length image.now) (length marks.old) capacity.0)
        marks.old (replicate (length marks.old) 0) marks.new result }
{
    capacity_code(image.len() as u64, marks.len() as u64, capacity)?;
    marks.fill(0);
    Ok(())
}

// A map with just the given items, from offset 0.
pub fn from_items(image: &mut [u8], marks: &mut [u8], items: &[u8]) -> Result<(), Refusal>
    ensures { LeavesBoth (capacity_code (length image.old) (length marks.old) (round_up (length items.now) PAGE_SIZE))
        image.old (splice image.old 0 (padded items.now)) image.new
        marks.old (mark_pages (replicate (length marks.old) 0) 0 (padded_pages (length items.now))) marks.new result }
{
    let capacity = RVA(util::align(items.len() as u64, PAGE_SIZE));
    with_capacity(image, marks, capacity)?;
    writezx(image, marks, RVA(0), items)
}
