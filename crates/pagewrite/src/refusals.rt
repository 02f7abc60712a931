// What the page writes refuse.
ghost use Rattle.std.specs.Prelude.{◌≡◌};
ghost use Rattle.pagewrite.specs.PageWrite.{pages_lent, page_write_code, padded_write_code, capacity_code};

use arch::{PAGE_SIZE, RVA};
use refusal::Refusal;

// n pages from `o` are lent; none are anywhere.
#[tactic(auto, using(crate::proofs::Laws::lent_ways))]
fn pages_lent(size: u64, o: RVA, n: u64) -> bool
    ensures { result ≡ pages_lent size o.0 n }
{
    n == 0 || n <= size / PAGE_SIZE && util::within(o.0, n * PAGE_SIZE, size)
}

// The refusal of a page write or an empty map of n bytes at `o`, if there is one.
#[tactic(auto, using(util::specs::Pick::picks), unfolding(crate::specs::PageWrite::page_write_code))]
pub(crate) fn page_write_code(size: u64, marks: u64, o: RVA, n: u64) -> Result<(), Refusal>
    ensures { result ≡ page_write_code size marks o.0 n }
{
    if !pagemap::storage_ok(size, marks) {
        return Err(Refusal::Storage);
    }
    if !o.is_page_aligned() {
        return Err(Refusal::NotOnAPage);
    }
    if n % PAGE_SIZE != 0 {
        return Err(Refusal::NotWholePages);
    }
    if !pages_lent(size, o, n / PAGE_SIZE) {
        return Err(Refusal::NotMapped);
    }
    Ok(())
}

// The refusal of a padded write of n bytes at `o`, if there is one.
#[tactic(auto, using(util::specs::Pick::picks), unfolding(crate::specs::PageWrite::padded_write_code))]
pub(crate) fn padded_write_code(size: u64, marks: u64, o: RVA, n: u64) -> Result<(), Refusal>
    ensures { result ≡ padded_write_code size marks o.0 n }
{
    if !pagemap::storage_ok(size, marks) {
        return Err(Refusal::Storage);
    }
    if !o.is_page_aligned() {
        return Err(Refusal::NotOnAPage);
    }
    if !pages_lent(size, o, n / PAGE_SIZE + 1) {
        return Err(Refusal::NotMapped);
    }
    Ok(())
}

// The refusal of a map for offsets up to `capacity`, if there is one: the storage lends a page for each of them.
#[tactic(auto, using(util::specs::Pick::picks), unfolding(crate::specs::PageWrite::capacity_code))]
pub(crate) fn capacity_code(size: u64, marks: u64, capacity: RVA) -> Result<(), Refusal>
    ensures { result ≡ capacity_code size marks capacity.0 }
{
    if pagemap::storage_ok(size, marks) && capacity.page() + 1 <= size / PAGE_SIZE {
        Ok(())
    } else {
        Err(Refusal::Storage)
    }
}
