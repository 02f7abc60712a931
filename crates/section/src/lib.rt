// A record of the section table, and what is asked of one record.
#![tactic(auto)]

ghost use Rattle.std.specs.Prelude.{◌≡◌};
ghost use Rattle.section.specs.Section.{
  within,
  holds,
  file_holds,
  has_byte,
  section_has_name,
  share_bit,
  intersects,
  grants,
  grants_offset,
};

use arch::{RVA, VA};

// A record of the section table: its range in memory, its range in the file, read 1, write 2 and execute 4 added,
// where its name stands in the file, and its number there, 0 for UNDEF.
#[derive(Clone, Copy, PartialEq, Eq)]
pub struct Section {
    pub start: VA,
    pub end: VA,
    pub file_start: u64,
    pub file_end: u64,
    pub permissions: u64,
    pub name_start: u64,
    pub name_length: u64,
    pub number: u64,
}

// What is asked about an address: one of these permissions, read 1, write 2 and execute 4 added.
#[derive(Clone, Copy, PartialEq, Eq)]
pub struct Probe {
    pub va: VA,
    pub permissions: u64,
}

// The same about an offset from the base.
#[derive(Clone, Copy, PartialEq, Eq)]
pub struct OffsetProbe {
    pub base: VA,
    pub rva: RVA,
    pub permissions: u64,
}

impl Section {
    // The address lies in the section's range.
    pub fn holds(self, va: VA) -> bool
        ensures { result ≡ holds va self }
    {
        within(self.start.0, self.end.0, va.0)
    }

    // The offset lies in the section's part of the file.
    pub fn file_holds(self, offset: u64) -> bool
        ensures { result ≡ file_holds offset self }
    {
        within(self.file_start, self.file_end, offset)
    }

    // It has the byte of the file that an answer names; whatever is told in place of one, it has none.
    pub fn has_byte<E: Copy>(self, n: Result<u64, E>) -> bool
        ensures { result ≡ has_byte self n }
    {
        n.is_ok_and(|offset| self.file_holds(offset))
    }

    // UNDEF, the section with no number in the file, has its name from no file.
    #[tactic(auto, unfolding(crate::specs::Section::section_has_name, util::specs::Pick::pick))]
    pub fn has_name(self, file: &[u8], name: &[u8]) -> bool
        ensures { result ≡ section_has_name file.now name.now self }
    {
        if self.number == 0 {
            names::is_undef(name)
        } else {
            names::same(
                le::part(file, self.name_start as usize, self.name_length as usize),
                name,
            )
        }
    }

    // The section holds the address and has one of the permissions.
    pub fn grants(self, q: Probe) -> bool
        ensures { result ≡ grants q self }
    {
        self.holds(q.va) && intersects(self.permissions, q.permissions)
    }

    // The same for an offset from the base; past 64 bits, no.
    pub fn grants_offset(self, q: OffsetProbe) -> bool
        ensures { result ≡ grants_offset q self }
    {
        let permissions = q.permissions;
        q.rva
            .address(q.base)
            .is_some_and(|va| self.grants(Probe { va, permissions }))
    }
}

// From `low` on and below `high`.
fn within(low: u64, high: u64, x: u64) -> bool
    ensures { result ≡ within low high x }
{
    (low..high).contains(&x)
}

// Both have the lowest bit.
fn share_bit(a: u64, b: u64) -> bool
    ensures { result ≡ share_bit a b }
{
    a % 2 == 1 && b % 2 == 1
}

// Both have read, or write, or execute.
fn intersects(a: u64, b: u64) -> bool
    ensures { result ≡ intersects a b }
{
    share_bit(a, b) || share_bit(a / 2, b / 2) || share_bit(a / 4, b / 4)
}
