// Places in the three spaces: an offset from the base, an address, and an offset from where a slice starts.
ghost use Rattle.std.specs.Prelude.{◌≡◌, Bool, true, ℕ, ◌+◌, ◌-◌, ◌^◌, ltb, Some, None};
ghost use Rattle.util.specs.Pick.{pick};
ghost use Rattle.arch.specs.Address.{rva};
ghost use Rattle.aspace.specs.Space.{reached};

use arch::{RVA, VA};

// Where bytes are read or written. Each reader and writer asks it for the offset of as many bytes as it moves.
pub trait Place: Copy {
    // Whether n bytes from here are reached: as addresses none lies below the base or past 64 bits.
    ghost reaches: { Self → ℕ → Bool };

    // The offset of the first, where they are.
    ghost start: { Self → ℕ };

    // The offset from the base of n bytes from here, at least one; none where not each of them is reached.
    fn offset(self, n: u64) -> Option<RVA>
        ensures { result ≡ pick (reaches self n) (Some (rva (start self))) None };
}

// The relative space: an offset from the base.
impl Place for RVA {
    ghost reaches = { λ _ _. true };

    ghost start = { λ o. o.0 };

    #[tactic(auto, unfolding(util::specs::Pick::pick))]
    fn offset(self, _n: u64) -> Option<RVA> {
        Some(self)
    }
}

// The absolute space: an address, with the base.
#[derive(Clone, Copy)]
pub struct Absolute {
    pub base: VA,
    pub address: VA,
}

impl Place for Absolute {
    ghost reaches = { λ p n. reached p.base.0 p.address.0 n };

    ghost start = { λ p. p.address.0 - p.base.0 };

    fn offset(self, n: u64) -> Option<RVA> {
        let offset = self.address.offset(self.base)?;
        self.address.0.checked_add(util::most(n, 1) - 1)?;
        Some(offset)
    }
}

// A slice of the relative space: an offset from where the slice starts. A slice of the absolute space starts at an address: there
// `RVA::address` from that start gives the address to read at.
#[derive(Clone, Copy)]
pub struct Sliced {
    pub start: RVA,
    pub offset: RVA,
}

impl Place for Sliced {
    ghost reaches = { λ p _. ltb (p.start.0 + p.offset.0) (2 ^ 64) };

    ghost start = { λ p. p.start.0 + p.offset.0 };

    #[tactic(auto, unfolding(arch::specs::Address::offset_plus))]
    fn offset(self, _n: u64) -> Option<RVA> {
        self.start.plus(self.offset)
    }
}
