// Numbers alone: `util` and `arch`.
use arch::{Arch, RVA, VA};

// The function's place in this list, in whose order the arms below stand.
pub(crate) fn question(line: &[u8]) -> u8 {
    cases::place(
        cases::word(line, 1),
        b"within RVA::is_page_aligned VA::is_page_aligned \
          of_machine address offset plus \
          align most page page_offset page_address pointer_size machine \
          X32_POINTER_SIZE X64_POINTER_SIZE X32_MACHINE X64_MACHINE PAGE_SIZE ",
    )
}

pub(crate) fn answer(k: u8, a: u64, b: u64, c: u64) {
    match k {
        0 => cases::yes(util::within(a, b, c)),
        1 => cases::yes(RVA(a).is_page_aligned()),
        2 => cases::yes(VA(a).is_page_aligned()),
        3 => found(Arch::of_machine((a % 0x10000) as u16).map(|m| u64::from(m.machine()))),
        4 => found(RVA(a).address(VA(b)).map(|v| v.0)),
        5 => found(VA(a).offset(VA(b)).map(|o| o.0)),
        6 => found(RVA(a).plus(RVA(b)).map(|o| o.0)),
        7..=18 => cases::hex(number(k, a, b)),
        _ => {}
    }
}

fn number(k: u8, a: u64, b: u64) -> u64 {
    match k {
        7 => util::align(a, b),
        8 => util::most(a, b),
        9 => RVA(a).page(),
        10 => RVA(a).page_offset(),
        11 => RVA(a).page_address().0,
        12 => of_bits(a).pointer_size() as u64,
        13 => u64::from(of_bits(a).machine()),
        14 => Arch::X32_POINTER_SIZE as u64,
        15 => Arch::X64_POINTER_SIZE as u64,
        16 => u64::from(Arch::X32_MACHINE),
        17 => u64::from(Arch::X64_MACHINE),
        _ => arch::PAGE_SIZE,
    }
}

// A machine is asked for as 32 or 64, and is its number as an answer.
pub(crate) fn of_bits(bits: u64) -> Arch {
    if bits == 32 { Arch::X32 } else { Arch::X64 }
}

// A number, where there is one.
fn found(n: Option<u64>) {
    match n {
        Some(v) => cases::hex(v),
        None => cases::yes(false),
    }
}
