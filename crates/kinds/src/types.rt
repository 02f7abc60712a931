// The relocation types of both machines.
ghost use Rattle.std.specs.Prelude.{◌≡◌, ◌<◌};
ghost use Rattle.kinds.specs.Types.{type_of, kind_of_number, relocation_kind_number};
ghost use Rattle.kinds.specs.Rows.{row_in, addend_of, unpacked};

use crate::{RelocationKind, RelocationType};
use arch::Arch;

// The types of each machine, a byte a row, by octal digits: the field's length in words of 32 bits; how many bytes behind its field a distance is counted from;
// the kind's number. Types past the last row are unknown. Constants: packed, and without heap, each machine's types fit a cache line for the loops over
// relocations.
const X32_ROWS: usize = 21;

// The types of i386.
pub const X32_TYPES: [u8; X32_ROWS] = [
    0o005, 0o004, // 0x1 DIR16
    0o004, // 0x2 REL16
    0o005, 0o005, 0o005, 0o100, // 0x6 DIR32
    0o101, // 0x7 DIR32NB
    0o005, 0o005, 0o004, // 0xa SECTION
    0o102, // 0xb SECREL
    0o005, 0o004, // 0xd SECREL7
    0o005, 0o005, 0o005, 0o005, 0o005, 0o005, 0o103, // 0x14 REL32
];

const X64_ROWS: usize = 13;

// The types of x64.
pub const X64_TYPES: [u8; X64_ROWS] = [
    0o005, 0o200, // 0x1 ADDR64
    0o100, // 0x2 ADDR32
    0o101, // 0x3 ADDR32NB
    0o103, // 0x4 REL32
    0o113, // 0x5 REL32_1
    0o123, // 0x6 REL32_2
    0o133, // 0x7 REL32_3
    0o143, // 0x8 REL32_4
    0o153, // 0x9 REL32_5
    0o004, // 0xa SECTION
    0o102, // 0xb SECREL
    0o004, // 0xc SECREL7
];

// The row of a type that no table has.
const UNKNOWN_ROW: u8 = 0o005;

// The kind of a number in the tables; any other number is unknown.
impl From<u64> for RelocationKind {
    ghost from_gives = { λ n k. k ≡ kind_of_number n };

    #[tactic(auto, unfolding(crate::specs::Types::kind_of_number, util::specs::Pick::pick))]
    fn from(n: u64) -> RelocationKind {
        match n {
            0 => RelocationKind::Absolute,
            1 => RelocationKind::ImageOffset,
            2 => RelocationKind::SectionOffset,
            3 => RelocationKind::Relative,
            4 => RelocationKind::NotCarried,
            _ => RelocationKind::Unknown,
        }
    }
}

// The number of a kind in the tables.
impl From<RelocationKind> for u64 {
    ghost from_gives = { λ k n. n ≡ relocation_kind_number k };

    fn from(k: RelocationKind) -> u64 {
        k as u64
    }
}

// In two's complement: from n bytes behind a field of four back to its start.
fn addend_of(kind: RelocationKind, n: u64) -> u64
    requires { n < 8 }
    ensures { result ≡ addend_of kind n }
{
    if kind == RelocationKind::Relative {
        0xFFFFFFFFFFFFFFFC - n
    } else {
        0
    }
}

// What a row says of its type. Its digits are taken apart as words: a byte's would each have to be widened again.
#[tactic(auto, unfolding(crate::specs::Rows::unpacked))]
pub fn unpack(row: u8) -> RelocationType
    ensures { result ≡ unpacked row }
{
    let digits = u64::from(row);
    let kind = RelocationKind::from(digits % 8);
    RelocationType {
        kind,
        bits: digits / 64 * 32,
        addend: addend_of(kind, digits / 8 % 8),
    }
}

// Row t of a table of types. A caller with many types makes the table once.
#[tactic(auto, unfolding(crate::specs::Rows::row_in))]
pub fn row_in(rows: &[u8], t: u16) -> u8
    ensures { result ≡ row_in rows.now t }
{
    rows.get(usize::from(t)).copied().unwrap_or(UNKNOWN_ROW)
}

// What a type of the machine asks for.
#[tactic(auto, using(crate::specs::Rows::by_table))]
pub fn type_of(arch: Arch, t: u16) -> RelocationType
    ensures { result ≡ type_of arch t }
{
    match arch {
        Arch::X32 => unpack(row_in(&X32_TYPES, t)),
        Arch::X64 => unpack(row_in(&X64_TYPES, t)),
    }
}
