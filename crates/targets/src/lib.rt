// What a relocation's symbol comes to: an offset from the base, a reason to skip, or a refusal.
#![tactic(auto)]

ghost use Rattle.std.specs.Prelude.{◌≡◌};
ghost use Rattle.homes.specs.Home.{by_number, home_in};
ghost use Rattle.targets.specs.Target.{skip_number, home_target};
ghost use Rattle.targets.specs.Table.{plain_target, code_target, target_in};

use arch::RVA;

// Why a relocation is skipped: K1 to K4.
#[derive(Clone, Copy, Debug, PartialEq, Eq)]
pub enum Skip {
    NoSymbol = 1,
    NoHome = 2,
    NoSlot = 3,
    NoType = 4,
}

// The number that the table of skips has for a reason.
impl From<Skip> for u64 {
    ghost from_gives = { λ s n. n ≡ skip_number s };

    fn from(s: Skip) -> u64 {
        s as u64
    }
}

// What a symbol comes to: its section's home, a section found by name, a slot; a reason to skip; or a refusal.
#[derive(Clone, Copy)]
pub enum Target {
    Home(RVA),
    Named(RVA),
    Slot(RVA),
    Missing(Skip),
    Refused,
}

#[tactic(auto, unfolding(crate::specs::Target::home_target))]
fn home_target(homes: &[u32], n: u32) -> Target
    ensures { result ≡ home_target (by_number (home_in homes.now) None n) }
{
    match homes::home_of_number(homes, n) {
        Some(o) => Target::Home(o),
        None => Target::Missing(Skip::NoHome),
    }
}

// Of a code that stands for one thing.
#[tactic(auto, unfolding(crate::specs::Table::plain_target, util::specs::Pick::pick))]
fn plain_target(undef: u32, c: u16) -> Target
    ensures { result ≡ plain_target undef c }
{
    match c {
        0 => Target::Missing(Skip::NoSymbol),
        1..=codes::REFUSED => Target::Refused,
        codes::UNDEF_RECORD => Target::Named(RVA(u64::from(undef))),
        _ => Target::Missing(Skip::NoSlot),
    }
}

// Of any code.
#[tactic(auto, unfolding(crate::specs::Table::code_target, util::specs::Pick::pick))]
fn code_target(homes: &[u32], undef: u32, c: u16) -> Target
    ensures { result ≡ code_target (home_in homes.now) undef c }
{
    match u32::from(c) {
        0..codes::HOMES => plain_target(undef, c),
        n @ codes::HOMES..codes::RECORDS => home_target(homes, n - codes::HOMES),
        n @ codes::RECORDS..codes::SLOTS => {
            Target::Named(homes::start_in(homes, n - codes::RECORDS))
        }
        n => Target::Slot(RVA(u64::from(undef) + limits::SLOT_SIZE * u64::from(n - codes::SLOTS))),
    }
}

// What symbol j comes to: `codes` has what is kept of the symbols, `homes` what is kept of the sections' homes.
#[tactic(auto, using(crate::proofs::Laws::target_by))]
pub fn target_in(homes: &[u32], undef: u32, codes: &[u16], j: u32) -> Target
    ensures { result ≡ target_in homes.now undef codes.now j }
{
    code_target(homes, undef, codes::code_at(codes, j))
}
