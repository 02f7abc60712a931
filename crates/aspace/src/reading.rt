// Reading at any place.
ghost use Rattle.std.specs.Prelude.{◌≡◌, length, IfOk, IfErr};
ghost use Rattle.util.specs.Pick.{pick};
ghost use Rattle.arch.specs.Address.{rva};
ghost use Rattle.arch.specs.Machine.{pointer_size};
ghost use Rattle.le.specs.Le.{part, splice};
ghost use Rattle.refusal.specs.Refusal.{PASSES, Leaves};
ghost use Rattle.aspace.specs.Places.{span_there, read_code_there, read_number_there, bytes_code_there};

use crate::{Place, Width};
use arch::{Arch, RVA};
use refusal::Refusal;

// The offset of n bytes there, where all of them are mapped.
#[tactic(auto, using(crate::proofs::Places::finds))]
pub fn find<P: Place>(size: u64, marks: &[u8], at: P, n: u64) -> Option<RVA>
    ensures { result ≡ pick (span_there (P.reaches at n) size marks.now (P.start at) n) (Some (rva (P.start at))) None }
{
    let offset = at.offset(n)?;
    if pagemap::span_mapped(size, marks, offset, n) {
        Some(offset)
    } else {
        None
    }
}

// The n bytes there, or why they may not be read.
#[tactic(auto, using(crate::proofs::Places::reads))]
fn bytes<'a, P: Place>(image: &'a [u8], marks: &[u8], at: P, n: usize) -> Result<&'a [u8], Refusal>
    ensures read { IfOk result (λ s. (read_code_there (P.reaches at n) (length image.now) marks.now (P.start at) n ≡ PASSES)
        × (s.now ≡ part image.now (P.start at) n) × (length s.now ≡ n)) }
    ensures refused { IfErr result (λ r. read_code_there (P.reaches at n) (length image.now) marks.now (P.start at) n ≡ Err r) }
{
    let size = image.len() as u64;
    if !pagemap::storage_ok(size, marks.len() as u64) {
        return Err(Refusal::Storage);
    }
    let Some(offset) = find(size, marks, at, n as u64) else {
        return Err(Refusal::NotMapped);
    };
    let from = offset.0 as usize;
    Ok(&image[from..from + n])
}

// The bytes from there on, as many as `buf` takes.
pub fn read_into<P: Place>(image: &[u8], marks: &[u8], at: P, buf: &mut [u8]) -> Result<(), Refusal>
    ensures { Leaves (read_code_there (P.reaches at (length buf.old)) (length image.now) marks.now (P.start at) (length buf.old))
        buf.old (part image.now (P.start at) (length buf.old)) buf.new result }
{
    le::copy(buf, 0, bytes(image, marks, at, buf.len())?);
    Ok(())
}

// The number of that width there.
pub fn read_number<W: Width, P: Place>(image: &[u8], marks: &[u8], at: P) -> Result<u64, Refusal>
    ensures { result ≡ read_number_there W.BYTES (P.reaches at W.BYTES) image.now marks.now (P.start at) }
{
    Ok(le::u64_at(bytes(image, marks, at, W::BYTES)?, 0))
}

// A number of the machine's pointer size.
pub fn read_pointer<P: Place>(image: &[u8], marks: &[u8], arch: Arch, at: P) -> Result<u64, Refusal>
    ensures { result ≡ read_number_there (pointer_size arch) (P.reaches at (pointer_size arch)) image.now marks.now (P.start at) }
{
    match arch {
        Arch::X32 => read_number::<u32, _>(image, marks, at),
        Arch::X64 => read_number::<u64, _>(image, marks, at),
    }
}

// `n` bytes from there on, to the front of `out`, which must have room for them (13).
pub fn read_bytes<P: Place>(
    image: &[u8],
    marks: &[u8],
    at: P,
    n: usize,
    out: &mut [u8],
) -> Result<(), Refusal>
    ensures { Leaves (bytes_code_there (P.reaches at n) (length image.now) marks.now (P.start at) n (length out.old))
        out.old (splice out.old 0 (part image.now (P.start at) n)) out.new result }
{
    if out.len() < n {
        return Err(Refusal::Storage);
    }
    le::copy(out, 0, bytes(image, marks, at, n)?);
    Ok(())
}
