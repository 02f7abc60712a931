// What an object is to have, and where its parts stand: header, sections, symbols, strings, relocations, one behind the other.
ghost use Rattle.std.specs.Prelude.{◌≤◌, ◌<◌, ◌^◌};

pub(crate) const NUMBERS: u16 = 9;

// 16 bits each, so that no sum below wraps.
#[derive(Clone, Copy)]
pub(crate) struct Plan {
    pub sections: u16,
    pub symbols: u16,
    pub defined: u16,
    pub relocations: u16,
    pub externs: u16,
    pub long: u16,
    pub length: u16,
    pub class: u8,
    pub times: u16,
}

fn number(numbers: &[u32], i: u16, k: u8) -> u16 {
    let x = le::word_at(numbers, (NUMBERS as usize) * (i as usize) + k as usize) % 0x10000;
    x as u16
}

pub(crate) fn plan_at(numbers: &[u32], i: u16) -> Plan {
    let class = number(numbers, i, 7) % 256;
    Plan {
        sections: number(numbers, i, 0),
        symbols: number(numbers, i, 1),
        defined: number(numbers, i, 2),
        relocations: number(numbers, i, 3),
        externs: number(numbers, i, 4),
        long: number(numbers, i, 5),
        length: number(numbers, i, 6),
        class: class as u8,
        times: number(numbers, i, 8),
    }
}

// The product of two, in 32 bits.
pub(crate) fn product(a: u16, b: u16) -> u32
    ensures { result ≤ 4294836225 }
{
    (a as u32) * (b as u32)
}

// How often n is in a, and what is left: a turn below n. Both are 0 where n is.
pub(crate) fn share(a: u16, n: u16) -> u16 {
    a.checked_div(n).unwrap_or(0)
}

pub(crate) fn turn(a: u16, n: u16) -> u16 {
    a.checked_rem(n).unwrap_or(0)
}

pub(crate) fn section_at(i: u16) -> u32 {
    20 + 40 * (i as u32)
}

pub(crate) fn symbol_at(p: Plan, j: u16) -> u32 {
    20 + 40 * (p.sections as u32) + 18 * (j as u32)
}

pub(crate) fn string_table(p: Plan) -> u32 {
    symbol_at(p, p.symbols)
}

// Where long name e stands, from the string table's start on.
pub(crate) fn string_offset(p: Plan, e: u16) -> u32 {
    4 + e as u32 + product(p.length, e)
}

pub(crate) fn relocation_at(p: Plan, g: u32) -> usize
    ensures { result < 2 ^ 38 }
{
    string_table(p) as usize + string_offset(p, p.long) as usize + 10 * (g as usize)
}

pub(crate) fn size(p: Plan) -> usize {
    relocation_at(p, p.relocations as u32)
}
