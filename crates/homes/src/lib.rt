// Homes of sections, and the symbols that are listed by them, from get_coff_symbols.
#![tactic(auto)]

mod fill;
mod kept;
mod listed;

pub use fill::fill_homes;
pub use kept::{home_in, home_of_number, start_in, word_start};
pub use listed::{is_listed, listed_offset, listed_total, record_of_place};
