// Pages in lent storage, from pagemap.rs: the image lies page after page in `image`, and `marks` has one bit a page (crate `marks`).
// Every function first tests the storage (13): the image is whole pages, and there are marks for all of them. The crate `pagewrite` writes pages.
#![tactic(auto)]

mod reading;

pub use reading::{get, probe, read_code, slice, slice_into, span_mapped, storage_ok};
