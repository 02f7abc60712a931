// Reading: every page that is touched must be mapped, and is tested before a byte is handed over.
ghost use Rattle.std.specs.Prelude.{◌≡◌, ◌-◌, length, get_or};
ghost use Rattle.le.specs.Le.{part, splice};
ghost use Rattle.refusal.specs.Refusal.{answer_of, Leaves};
ghost use Rattle.pagemap.specs.Pages.{storage_ok, span_mapped, probed, read_code, slice_code};

use arch::{PAGE_SIZE, RVA};
use marks::WORD_BYTES;
use refusal::Refusal;

// The image is whole pages, and there are marks for all of them. Both sizes are in bytes.
#[tactic(auto, unfolding(crate::specs::Pages::storage_ok))]
pub fn storage_ok(size: u64, marks: u64) -> bool
    ensures { result ≡ storage_ok size marks }
{
    size % PAGE_SIZE == 0 && WORD_BYTES * marks::words_for(size / PAGE_SIZE) <= marks
}

// Each of the n bytes from `o` is mapped in an image of `size` bytes; if n is 0, `o` itself is.
#[tactic(auto, using(crate::proofs::Laws::span_ways))]
pub fn span_mapped(size: u64, marks: &[u8], o: RVA, n: u64) -> bool
    ensures { result ≡ span_mapped size marks.now o.0 n }
{
    let m = util::most(n, 1);
    if !util::within(o.0, m, size / PAGE_SIZE * PAGE_SIZE) {
        return false;
    }
    let last = (o.0 + (m - 1)) / PAGE_SIZE;
    marks::all_marked(marks, o.page(), last + 1)
}

// Is the given offset mapped?
#[tactic(auto, unfolding(crate::specs::Pages::probed, crate::specs::Pages::mapped))]
pub fn probe(image: &[u8], marks: &[u8], rva: RVA) -> bool
    ensures { result ≡ probed (length image.now) marks.now rva.0 }
{
    let size = image.len() as u64;
    let page = rva.page();
    storage_ok(size, marks.len() as u64) && page < size / PAGE_SIZE && marks::marked(marks, page)
}

// The refusal of reading n bytes from `o`, if there is one.
#[tactic(auto, using(util::specs::Pick::picks), unfolding(crate::specs::Pages::read_code))]
pub fn read_code(size: u64, marks: &[u8], o: RVA, n: u64) -> Result<(), Refusal>
    ensures { result ≡ read_code size marks.now o.0 n }
{
    if !storage_ok(size, marks.len() as u64) {
        return Err(Refusal::Storage);
    }
    if !span_mapped(size, marks, o, n) {
        return Err(Refusal::NotMapped);
    }
    Ok(())
}

// The byte at the given offset.
#[tactic(auto, using(crate::proofs::Laws::reads), unfolding(refusal::specs::Refusal::answer_of))]
pub fn get(image: &[u8], marks: &[u8], rva: RVA) -> Result<u64, Refusal>
    ensures { result ≡ answer_of (read_code (length image.now) marks.now rva.0 1) (get_or image.now rva.0 0) }
{
    read_code(image.len() as u64, marks, rva, 1)?;
    Ok(u64::from(image[rva.0 as usize]))
}

// The bytes from `start` on, as many as `buf` takes.
#[tactic(auto, using(crate::proofs::Laws::reads, refusal::specs::Refusal::answers))]
pub fn slice_into(image: &[u8], marks: &[u8], start: RVA, buf: &mut [u8]) -> Result<(), Refusal>
    ensures { Leaves (read_code (length image.now) marks.now start.0 (length buf.old))
        buf.old (part image.now start.0 (length buf.old)) buf.new result }
{
    let n = buf.len();
    read_code(image.len() as u64, marks, start, n as u64)?;
    let from = start.0 as usize;
    le::copy(buf, 0, &image[from..from + n]);
    Ok(())
}

// The refusal of reading from `start` up to `end` into `room` bytes, if there is one.
#[tactic(auto, using(crate::proofs::Laws::slice_ways))]
fn slice_code(size: u64, marks: &[u8], start: RVA, end: RVA, room: u64) -> Result<(), Refusal>
    ensures { result ≡ slice_code size marks.now start.0 end.0 room }
{
    if !storage_ok(size, marks.len() as u64) {
        return Err(Refusal::Storage);
    }
    if end.0 < start.0 {
        return Err(Refusal::NotMapped);
    }
    let n = end.0 - start.0;
    if room < n {
        return Err(Refusal::Storage);
    }
    if !span_mapped(size, marks, start, n) {
        return Err(Refusal::NotMapped);
    }
    Ok(())
}

// The bytes from `start` up to `end`, to the front of `buf`; a buffer that is too short is 13, and a start past the end 15.
#[tactic(auto, using(crate::proofs::Laws::reads, refusal::specs::Refusal::answers), unfolding(le::specs::Le::part))]
pub fn slice(
    image: &[u8],
    marks: &[u8],
    start: RVA,
    end: RVA,
    buf: &mut [u8],
) -> Result<(), Refusal>
    ensures { Leaves (slice_code (length image.now) marks.now start.0 end.0 (length buf.old))
        buf.old (splice buf.old 0 (part image.now start.0 (end.0 - start.0))) buf.new result }
{
    slice_code(image.len() as u64, marks, start, end, buf.len() as u64)?;
    le::copy(buf, 0, &image[start.0 as usize..end.0 as usize]);
    Ok(())
}
