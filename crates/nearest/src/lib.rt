// The listed symbol that an address belongs to, of those whose home is one record of the section table.
#![tactic(auto)]

ghost use Rattle.std.specs.Prelude.{◌≡◌, ◌+◌, ◌*◌, ◌≤◌, ◌^◌};
ghost use Rattle.limits.specs.Records.{SYMBOL_BYTES};
ghost use Rattle.nearest.specs.Nearest.{comes_next, nearest};

use arch::VA;
use limits::{ADDRESS, SYMBOL_HOME, SYMBOL_WORDS};
use refusal::Refusal;
use symbols::Symbol;

// A symbol by its number in the list, from 0, and how far behind it the address lies.
#[derive(Clone, Copy, PartialEq, Eq)]
pub struct Routine {
    pub symbol: u64,
    pub distance: u64,
}

// Whether record k has that home and lies at the address or below, but not below `top`.
#[tactic(auto, unfolding(crate::specs::Nearest::comes_next, crate::specs::Nearest::qualifies))]
fn comes_next(symbols: &[u8], home: u64, va: VA, top: u64, k: usize) -> bool
    requires { SYMBOL_BYTES * k + SYMBOL_BYTES ≤ 2 ^ 64 }
    ensures { result ≡ comes_next symbols.now home va top k }
{
    let at = words::word(symbols, SYMBOL_WORDS, k, ADDRESS);
    words::word(symbols, SYMBOL_WORDS, k, SYMBOL_HOME) == home && at <= va.0 && top <= at
}

// Of the symbols with that home, at the address or below, the one with the greatest address; of several there the last.
#[tactic(auto, using(crate::proofs::Laws::walk_starts))]
pub fn nearest(symbols: &[u8], home: u64, va: VA) -> Result<Routine, Refusal>
    ensures { result ≡ nearest symbols.now home va }
{
    let mut best = Err(Refusal::NoRoutine);
    let mut top = 0;
    for k in 0..symbols::count::<Symbol>(symbols) {
        if comes_next(symbols, home, va, top, k) {
            top = words::word(symbols, SYMBOL_WORDS, k, ADDRESS);
            best = Ok(Routine {
                symbol: k as u64,
                distance: va.0 - top,
            });
        }
    }
    best
}
