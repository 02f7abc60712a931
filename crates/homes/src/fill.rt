// What is kept of all sections' homes: which loaded sections start where, and which records they are, from load_coff_sections.
ghost use Rattle.std.specs.Prelude.{◌≡◌, ◌+◌, ◌<◌, ◌^◌};
ghost use Rattle.le.specs.Le.{splice};
ghost use Rattle.arch.specs.Address.{rva};
ghost use Rattle.layout.specs.Layout.{undef_start};
ghost use Rattle.homes.specs.Home.{kept_word, homes_to};

use crate::kept::HALF;
use arch::{PAGE_SIZE, RVA};
use object::Header;

// What is kept of a record that starts there.
#[tactic(auto, unfolding(crate::specs::Home::kept_word))]
fn kept_word(count: u32, start: RVA) -> u32
    requires { count + 1 < 2 ^ 16 }
    ensures { result ≡ kept_word count start.0 }
{
    let page = start.0 / PAGE_SIZE % u64::from(HALF);
    HALF * (count + 1) + page as u32
}

// A word for each section, into as many words; the answer is where UNDEF starts, which lies behind them.
#[tactic(auto, using(crate::proofs::Laws::homes_loop))]
pub fn fill_homes(f: &[u8], h: Header, homes: &mut [u32]) -> RVA
    ensures homes_after { homes.new ≡ splice homes.old 0 (homes_to f.now h h.sections) }
    ensures value { result ≡ rva (undef_start f.now h) }
{
    let mut at = RVA(0);
    let mut count = 0;
    for i in 0..h.sections {
        let next = layout::next_start(f, h, u32::from(i), at);
        if object::is_loaded(f, h, u32::from(i)) {
            le::put_word(homes, usize::from(i), kept_word(count, at));
            count += 1;
        } else {
            le::put_word(homes, usize::from(i), 0);
        }
        at = next;
    }
    at
}
