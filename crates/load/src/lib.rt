// Load: tables, marks and image into lent storage at a base, or a refusal that changes nothing.
#![tactic(auto)]

ghost use Rattle.std.specs.Prelude.{replicate};
ghost use Rattle.object.specs.Format.{header_of};
ghost use Rattle.survey.specs.Surveying.{Cleared};
ghost use Rattle.storage.specs.Storage.{SameBuffers, storage_of};
ghost use Rattle.loading.specs.Load.{Loads};

use arch::VA;
use limits::{FEW_SECTIONS, FEW_SYMBOLS, MAX_SECTIONS, MAX_SYMBOLS};
use refusal::Refusal;
use storage::Lent;
use survey::Counts;

// What sections and symbols come to stands in arrays with room for so many.
fn load_in<const SECTIONS: usize, const SYMBOLS: usize>(
    f: &[u8],
    base: VA,
    lent: &mut Lent,
) -> Result<Counts, Refusal>
    requires { Cleared (header_of f.now) (replicate SECTIONS 0) (replicate SYMBOLS 0) }
    ensures same { SameBuffers lent.old lent.new }
    ensures loads { Loads f.now base.0 (storage_of lent.old) (storage_of lent.new) result }
{
    let mut homes = [0u32; SECTIONS];
    let mut codes = [0u16; SYMBOLS];
    loading::load_with(f, base, &mut homes, &mut codes, lent)
}

// Everything that survey counts, at a base, into lent storage; or a refusal, and no byte has changed.
// The arrays are small where sections and symbols are few.
pub fn load(f: &[u8], base: VA, lent: &mut Lent) -> Result<Counts, Refusal>
    ensures same { SameBuffers lent.old lent.new }
    ensures loads { Loads f.now base.0 (storage_of lent.old) (storage_of lent.new) result }
{
    if survey::few_records(object::read_header(f)) {
        load_in::<FEW_SECTIONS, FEW_SYMBOLS>(f, base, lent)
    } else {
        load_in::<MAX_SECTIONS, MAX_SYMBOLS>(f, base, lent)
    }
}
