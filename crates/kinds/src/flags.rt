// Section flags.
ghost use Rattle.std.specs.Prelude.{◌≡◌};
ghost use Rattle.kinds.specs.Flags.{loaded_by, align_of, permissions_by};

// The flags that are looked at, from PE/COFF's "Section Flags".
const LNK_REMOVE: u32 = 0x800;

const MEM_DISCARDABLE: u32 = 0x2000000;

// The section has no bytes in the file.
pub const CNT_UNINITIALIZED: u32 = 0x80;

// The count of relocations stands in the first of them.
pub const LNK_NRELOC_OVFL: u32 = 0x1000000;

const MEM_EXECUTE: u32 = 0x20000000;

const MEM_READ: u32 = 0x40000000;

const MEM_WRITE: u32 = 0x80000000;

// Neither removed nor discardable.
#[tactic(auto, unfolding(crate::specs::Flags::loaded_by))]
pub fn loaded_by(x: u32) -> bool
    ensures { result ≡ loaded_by x }
{
    let removed = x / LNK_REMOVE % 2 == 1;
    let discardable = x / MEM_DISCARDABLE % 2 == 1;
    !removed && !discardable
}

// The alignment that a code means: 1 to 14 are powers of two, the others 16.
#[tactic(auto, using(crate::proofs::Laws::shifted), unfolding(crate::specs::Flags::align_of, util::specs::Pick::pick))]
pub fn align_of(n: u32) -> u32
    ensures { result ≡ align_of n }
{
    match n {
        1..=14 => 1 << (n - 1),
        _ => 16,
    }
}

// Read 1, write 2, execute 4.
#[tactic(auto, using(crate::proofs::Laws::permissions_sum))]
pub fn permissions_by(x: u32) -> u32
    ensures { result ≡ permissions_by x }
{
    x / MEM_READ % 2 + x / MEM_WRITE % 2 * 2 + x / MEM_EXECUTE % 2 * 4
}
