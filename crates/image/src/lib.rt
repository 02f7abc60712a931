// The laid image and its marks, in lent storage. Offsets from the base are places in the image.
#![tactic(auto)]

ghost use Rattle.std.specs.Prelude.{◌≡◌};
ghost use Rattle.marks.specs.Marks.{marks_put};
ghost use Rattle.homes.specs.Home.{home_in};
ghost use Rattle.image.specs.Laid.{section_bytes, section_step, sections_laid, slot_step, slots_laid, laid};

use arch::{PAGE_SIZE, RVA, VA};
use object::Header;

// The bytes of section i's file range.
#[tactic(auto, using(crate::proofs::Laws::range_up, crate::proofs::Laws::bytes_by))]
fn section_bytes(f: &[u8], h: Header, i: u32) -> &[u8]
    ensures { result.now ≡ section_bytes f.now h i }
{
    let from = object::file_start(f, h, i);
    let to = object::file_end(f, h, i);
    le::part(f, from as usize, (to - u64::from(from)) as usize)
}

// Section i's bytes, if it is loaded, at its home's start.
#[tactic(auto, using(crate::proofs::Laws::section_ways))]
fn lay_section(f: &[u8], h: Header, homes: &[u32], image: &mut [u8], i: u32)
    ensures { image.new ≡ section_step f.now h (home_in homes.now) image.old i }
{
    if object::is_loaded(f, h, i) {
        let at = homes::start_in(homes, i);
        le::copy(image, at.0 as usize, section_bytes(f, h, i));
    }
}

#[tactic(auto, using(crate::proofs::Laws::sections_loop))]
fn lay_sections(f: &[u8], h: Header, homes: &[u32], image: &mut [u8])
    ensures { image.new ≡ sections_laid f.now h (home_in homes.now) image.old h.sections }
{
    for i in 0..h.sections {
        lay_section(f, h, homes, image, u32::from(i));
    }
}

// Slot e holds its own address; one past 64 bits lies in no image.
#[tactic(auto, using(crate::proofs::Laws::slot_laid, crate::proofs::Laws::slot_past))]
fn lay_slot(base: VA, undef: RVA, e: u32, image: &mut [u8])
    ensures { image.new ≡ slot_step base.0 undef.0 image.old e }
{
    if let Some(at) = undef.plus(RVA(limits::SLOT_SIZE * u64::from(e))) {
        let address = base.0.wrapping_add(at.0);
        le::put(image, at.0 as usize, limits::SLOT_SIZE as usize, address);
    }
}

#[tactic(auto, using(crate::proofs::Laws::slots_loop))]
fn lay_slots(base: VA, undef: RVA, n: u32, image: &mut [u8])
    ensures { image.new ≡ slots_laid base.0 undef.0 image.old n }
{
    for e in 0..n {
        lay_slot(base, undef, e, image);
    }
}

// Zero pages, the sections' bytes, the slots of n extern names.
#[tactic(auto, using(crate::proofs::Laws::laid_is))]
fn lay(
    f: &[u8],
    h: Header,
    homes: &[u32],
    pages: u32,
    base: VA,
    undef: RVA,
    n: u32,
    image: &mut [u8],
)
    ensures { image.new ≡ laid f.now h (home_in homes.now) pages base.0 undef.0 n image.old }
{
    le::zero(image, 0, (PAGE_SIZE * u64::from(pages)) as usize);
    lay_sections(f, h, homes, image);
    lay_slots(base, undef, n, image);
}

// The image and its marks.
pub fn lay_marked(
    f: &[u8],
    h: Header,
    homes: &[u32],
    pages: u32,
    base: VA,
    undef: RVA,
    n: u32,
    image: &mut [u8],
    marks: &mut [u8],
)
    ensures image_after { image.new ≡ laid f.now h (home_in homes.now) pages base.0 undef.0 n image.old }
    ensures marks_after { marks.new ≡ marks_put pages marks.old }
{
    lay(f, h, homes, pages, base, undef, n, image);
    marks::put_marks(pages, marks);
}
