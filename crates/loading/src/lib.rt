// Plan and writing in one: load, with the arrays for what the sections and symbols come to lent by the caller.
#![tactic(auto)]

ghost use Rattle.object.specs.Format.{header_of};
ghost use Rattle.survey.specs.Surveying.{Cleared};
ghost use Rattle.storage.specs.Storage.{SameBuffers, storage_of};
ghost use Rattle.loading.specs.Load.{Loads};

use arch::VA;
use plan::Lengths;
use refusal::Refusal;
use storage::Lent;
use survey::Counts;

// Everything that survey counts, or a refusal and no byte has changed; `homes` and `codes` are the caller's, and what is written is told where they held zeros.
pub fn load_with(
    f: &[u8],
    base: VA,
    homes: &mut [u32],
    codes: &mut [u16],
    lent: &mut Lent,
) -> Result<Counts, Refusal>
    ensures same { SameBuffers lent.old lent.new }
    ensures loads { Cleared (header_of f.now) homes.old codes.old
        → Loads f.now base.0 (storage_of lent.old) (storage_of lent.new) result }
{
    let l = Lengths {
        image: lent.image.len(),
        marks: lent.marks.len(),
        sections: lent.sections.len(),
        symbols: lent.symbols.len(),
        externs: lent.externs.len(),
        fixups: lent.fixups.len(),
        skips: lent.skips.len(),
    };
    let mut slots = [0u32; limits::EXTERN_ROOM];
    let (counts, names) = plan::plan_file(f, base, l, homes, codes, &mut slots)?;
    storage::write_all(f, base, homes, codes, &slots, names, lent);
    Ok(counts)
}
