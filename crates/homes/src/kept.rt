// What is kept of homes, read back.
ghost use Rattle.std.specs.Prelude.{◌≡◌, ◌<◌, ◌^◌};
ghost use Rattle.arch.specs.Address.{rva};
ghost use Rattle.homes.specs.Home.{by_number, start_of, word_start, home_in, Low};

use arch::{PAGE_SIZE, RVA};

// How many numbers half a word has: a home is kept as its page in the low half, and one more than its record in the high half.
pub const HALF: u32 = 0x10000;

// The start that a word keeps.
pub fn word_start(word: u32) -> RVA
    ensures value { result ≡ rva (word_start word) }
    ensures result_bound { result.0 < 2 ^ 32 }
{
    RVA(PAGE_SIZE * u64::from(word % HALF))
}

// Where the home of section i starts, by the words of all sections' homes; 0 where it has none.
#[tactic(auto, using(crate::proofs::Laws::words))]
pub fn start_in(homes: &[u32], i: u32) -> RVA
    ensures value { result ≡ rva (start_of (home_in homes.now i)) }
    ensures result_bound { result.0 < 2 ^ 32 }
{
    word_start(le::word_at(homes, i as usize))
}

// The same, told apart from none.
#[tactic(auto, using(crate::proofs::Laws::words))]
pub fn home_in(homes: &[u32], i: u32) -> Option<RVA>
    ensures value { result ≡ home_in homes.now i }
    ensures low { Low result }
{
    let word = le::word_at(homes, i as usize);
    if word == 0 {
        None
    } else {
        Some(word_start(word))
    }
}

// The same for a section's number, from 1.
#[tactic(auto, using(crate::proofs::Laws::words))]
pub fn home_of_number(homes: &[u32], n: u32) -> Option<RVA>
    ensures value { result ≡ by_number (home_in homes.now) None n }
    ensures low { Low result }
{
    home_in(homes, n.checked_sub(1)?)
}
