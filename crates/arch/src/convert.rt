// The ways between addresses and offsets; each takes the base.
#![tactic(auto, using(crate::specs::Address::address_ways, util::specs::Pick::picks))]

ghost use Rattle.std.specs.Prelude.{◌≡◌};
ghost use Rattle.arch.specs.Address.{offset_of, address_of, offset_plus};

use crate::{RVA, VA};

impl VA {
    // This address as an offset from `base`; none where it lies below.
    pub fn offset(self, base: VA) -> Option<RVA>
        ensures { result ≡ offset_of base.0 self.0 }
    {
        self.0.checked_sub(base.0).map(|o| RVA(o))
    }
}

impl RVA {
    // This offset as an address, from `base`; none where the sum is past 64 bits.
    pub fn address(self, base: VA) -> Option<VA>
        ensures { result ≡ address_of base.0 self.0 }
    {
        base.0.checked_add(self.0).map(|a| VA(a))
    }

    // The offset that lies `more` further on; none past 64 bits.
    pub fn plus(self, more: RVA) -> Option<RVA>
        ensures { result ≡ offset_plus self.0 more.0 }
    {
        self.0.checked_add(more.0).map(|o| RVA(o))
    }
}
