// Pages: the number of an offset's page, where that page starts, how far the offset lies into it.
ghost use Rattle.std.specs.Prelude.{◌≡◌};
ghost use Rattle.arch.specs.Page.{page_of, in_page, page_start, on_page};
ghost use Rattle.arch.specs.Address.{rva};

use crate::{RVA, VA};

// The bytes of a page: the unit of layout, marks and page writes.
pub const PAGE_SIZE: u64 = 4096;

impl RVA {
    // The number of the offset's page.
    pub fn page(self) -> u64
        ensures { result ≡ page_of self.0 }
    {
        self.0 / PAGE_SIZE
    }

    // How far it lies into that page.
    pub fn page_offset(self) -> u64
        ensures { result ≡ in_page self.0 }
    {
        self.0 % PAGE_SIZE
    }

    // Where that page starts.
    pub fn page_address(self) -> RVA
        ensures { result ≡ rva (page_start self.0) }
    {
        RVA(self.0 / PAGE_SIZE * PAGE_SIZE)
    }

    // A page starts here.
    pub fn is_page_aligned(self) -> bool
        ensures { result ≡ on_page self.0 }
    {
        self.0 % PAGE_SIZE == 0
    }
}

impl VA {
    // A page starts here.
    pub fn is_page_aligned(self) -> bool
        ensures { result ≡ on_page self.0 }
    {
        self.0 % PAGE_SIZE == 0
    }
}
