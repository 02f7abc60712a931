// The absolute space by itself, as its callers ask it: by the base and an address.
ghost use Rattle.std.specs.Prelude.{◌≡◌, ◌-◌, length};
ghost use Rattle.le.specs.Le.{part};
ghost use Rattle.refusal.specs.Refusal.{Leaves};
ghost use Rattle.aspace.specs.Space.{offset_at, span_mapped_at, read_code_at};

use crate::{Absolute, Place, find};
use arch::{RVA, VA};
use refusal::Refusal;

// The offset of n bytes from the address `a`, at least one. Where one of them lies below the base or past 64 bits it is the last
// offset of all, which no image has: they are not mapped.
#[tactic(auto, using(util::specs::Pick::picks), unfolding(crate::specs::Space::offset_at))]
pub fn offset_at(base: VA, a: VA, n: u64) -> RVA
    ensures { result.0 ≡ offset_at base.0 a.0 n }
{
    Absolute { base, address: a }
        .offset(n)
        .unwrap_or(RVA(u64::MAX))
}

// All of n bytes from the address `a` are mapped at the base.
#[tactic(auto, using(util::specs::Pick::picks), unfolding(crate::specs::Space::span_mapped_at, crate::specs::Places::span_there))]
pub fn span_at(size: u64, marks: &[u8], base: VA, a: VA, n: u64) -> bool
    ensures { result ≡ span_mapped_at size marks.now base.0 a.0 n }
{
    find(size, marks, Absolute { base, address: a }, n).is_some()
}

// The bytes from `address` on, as many as `buf` takes: what C asks for.
#[tactic(auto, unfolding(crate::specs::Space::read_code_at, crate::specs::Space::span_mapped_at, crate::specs::Places::read_code_there, crate::specs::Places::span_there))]
pub fn read_into(
    image: &[u8],
    marks: &[u8],
    base: VA,
    address: VA,
    buf: &mut [u8],
) -> Result<(), Refusal>
    ensures { Leaves (read_code_at (length image.now) marks.now base.0 address.0 (length buf.old))
        buf.old (part image.now (address.0 - base.0) (length buf.old)) buf.new result }
{
    crate::read_into(image, marks, Absolute { base, address }, buf)
}
