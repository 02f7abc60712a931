// The machines, from arch.rs, and addresses, offsets and pages, from lib.rs, pagemap.rs and aspace.rs.
#![tactic(auto)]

ghost use Rattle.std.specs.Prelude.{◌≡◌};
ghost use Rattle.arch.specs.Machine.{pointer_size, machine_of, arch_of, arch_by};

mod convert;
mod page;

pub use page::PAGE_SIZE;

// An address.
#[derive(Clone, Copy, PartialEq, Eq)]
pub struct VA(pub u64);

// An offset from the base. Only with the base does an address become an offset or an offset an address.
#[derive(Clone, Copy, PartialEq, Eq)]
pub struct RVA(pub u64);

// The machines that are loaded: i386 and x64.
#[derive(Clone, Copy, PartialEq, Eq)]
pub enum Arch {
    X32,
    X64,
}

impl Arch {
    // In bytes, on i386.
    pub const X32_POINTER_SIZE: usize = 4;

    // In bytes, on x64.
    pub const X64_POINTER_SIZE: usize = 8;

    // IMAGE_FILE_MACHINE_I386, the first field of the file header.
    pub const X32_MACHINE: u16 = 0x014C;

    // IMAGE_FILE_MACHINE_AMD64, the first field of the file header.
    pub const X64_MACHINE: u16 = 0x8664;

    // How many bytes a pointer has.
    pub fn pointer_size(self) -> usize
        ensures { result ≡ pointer_size self }
    {
        match self {
            Arch::X32 => Self::X32_POINTER_SIZE,
            Arch::X64 => Self::X64_POINTER_SIZE,
        }
    }

    // The number that the file header has for this machine.
    pub fn machine(self) -> u16
        ensures { result ≡ machine_of self }
    {
        match self {
            Arch::X32 => Self::X32_MACHINE,
            Arch::X64 => Self::X64_MACHINE,
        }
    }

    // The machine of a number, where there is one.
    #[tactic(auto, using(util::specs::Pick::picks), unfolding(crate::specs::Machine::arch_of))]
    pub fn of_machine(n: u16) -> Option<Arch>
        ensures { result ≡ arch_of n }
    {
        match n {
            Self::X32_MACHINE => Some(Arch::X32),
            Self::X64_MACHINE => Some(Arch::X64),
            _ => None,
        }
    }

    // The machine of a number that is known; of any other the first.
    pub fn by_machine(n: u16) -> Arch
        ensures { result ≡ arch_by (arch_of n) }
    {
        Self::of_machine(n).unwrap_or(Arch::X32)
    }
}
