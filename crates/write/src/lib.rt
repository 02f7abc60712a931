// Writing at any place into mapped pages; from aspace.rs. All that can be refused is tested before a byte changes.
#![tactic(auto)]

ghost use Rattle.std.specs.Prelude.{◌≡◌, length, IfOk, IfErr, OnOk};
ghost use Rattle.le.specs.Le.{le, splice};
ghost use Rattle.refusal.specs.Refusal.{PASSES, Leaves};
ghost use Rattle.write.specs.Write.{write_code_there};

use arch::RVA;
use aspace::{Place, Width};
use refusal::Refusal;

// The most bytes that one write takes.
pub const MAX_WRITE: u64 = 4096;

// The offset of n bytes there that may be written, or why they may not.
#[tactic(auto, using(crate::proofs::Laws::codes))]
fn writable<P: Place>(size: u64, marks: &[u8], at: P, n: u64) -> Result<RVA, Refusal>
    ensures written { OnOk result (write_code_there (P.reaches at n) size marks.now (P.start at) n ≡ PASSES) }
    ensures found { IfOk result (λ o. o.0 ≡ P.start at) }
    ensures refused { IfErr result (λ r. write_code_there (P.reaches at n) size marks.now (P.start at) n ≡ Err r) }
{
    if !pagemap::storage_ok(size, marks.len() as u64) {
        return Err(Refusal::Storage);
    }
    if n > MAX_WRITE {
        return Err(Refusal::TooLong);
    }
    aspace::find(size, marks, at, n).ok_or(Refusal::NotMapped)
}

// At most 4,096 bytes there; they may cross one page end, and are written only if all their pages are mapped.
pub fn write<P: Place>(image: &mut [u8], marks: &[u8], at: P, v: &[u8]) -> Result<(), Refusal>
    ensures { Leaves (write_code_there (P.reaches at (length v.now)) (length image.old) marks.now (P.start at) (length v.now))
        image.old (splice image.old (P.start at) v.now) image.new result }
{
    let offset = writable(image.len() as u64, marks, at, v.len() as u64)?;
    le::copy(image, offset.0 as usize, v);
    Ok(())
}

// A number of that width: as many low bytes of v. A signed number is in two's complement.
pub fn write_number<W: Width, P: Place>(
    image: &mut [u8],
    marks: &[u8],
    at: P,
    v: u64,
) -> Result<(), Refusal>
    ensures { Leaves (write_code_there (P.reaches at W.BYTES) (length image.old) marks.now (P.start at) W.BYTES)
        image.old (splice image.old (P.start at) (le W.BYTES v)) image.new result }
{
    let offset = writable(image.len() as u64, marks, at, W::BYTES as u64)?;
    le::put(image, offset.0 as usize, W::BYTES, v);
    Ok(())
}
