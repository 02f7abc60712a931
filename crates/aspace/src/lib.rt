// Reading over the pages of lent storage, by offset from the base, by address, and from a slice's start; from aspace.rs. The trait `Place` stands
// for the Rust's traits of spaces: each reader takes any place. The crate `write` writes, `strings` reads strings.
#![tactic(auto)]

pub mod absolute;
mod place;
mod reading;
mod width;

pub use place::{Absolute, Place, Sliced};
pub use reading::{find, read_bytes, read_into, read_number, read_pointer};
pub use width::Width;
