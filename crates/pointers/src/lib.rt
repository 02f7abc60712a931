// Pointers of the image, of the machine's pointer size: an address or an offset from the base, at any place.
#![tactic(auto)]

ghost use Rattle.std.specs.Prelude.{◌≡◌};
ghost use Rattle.arch.specs.Machine.{pointer_size};
ghost use Rattle.aspace.specs.Places.{read_number_there};
ghost use Rattle.pointers.specs.Pointers.{as_address, as_offset};

use arch::{Arch, RVA, VA};
use aspace::Place;
use refusal::Refusal;

// The address that stands there.
pub fn read_va<P: Place>(image: &[u8], marks: &[u8], arch: Arch, at: P) -> Result<VA, Refusal>
    ensures { result ≡ as_address (read_number_there (pointer_size arch) (P.reaches at (pointer_size arch)) image.now marks.now (P.start at)) }
{
    aspace::read_pointer(image, marks, arch, at).map(|v| VA(v))
}

// The offset that stands there. One function for both would need a trait of `VA` and `RVA`, which is no plainer than two lines.
pub fn read_rva<P: Place>(image: &[u8], marks: &[u8], arch: Arch, at: P) -> Result<RVA, Refusal>
    ensures { result ≡ as_offset (read_number_there (pointer_size arch) (P.reaches at (pointer_size arch)) image.now marks.now (P.start at)) }
{
    aspace::read_pointer(image, marks, arch, at).map(|v| RVA(v))
}
