// What tells what each relocation of a file comes to.
ghost use Rattle.std.specs.Prelude.{◌≡◌};
ghost use Rattle.kinds.specs.Rows.{rows_of};
ghost use Rattle.object.specs.Relocation.{relocation_in, record_at};
ghost use Rattle.homes.specs.Home.{word_home};
ghost use Rattle.targets.specs.Table.{target_in};
ghost use Rattle.fixups.specs.Outcome.{by_home};

use crate::{Outcome, outcomes};
use arch::Arch;
use object::{Header, Records};

// A file and what is kept of it: `types` is the machine's table, `homes` and `codes` have what is kept of the sections and the symbols, and UNDEF starts at `undef`.
#[derive(Clone, Copy)]
pub struct Resolver<'a> {
    pub arch: Arch,
    pub types: &'a [u8],
    pub file: &'a [u8],
    pub header: Header,
    pub homes: &'a [u32],
    pub undef: u32,
    pub codes: &'a [u16],
    pub ghost table: { types.now ≡ rows_of arch },
}

// The table of types of a machine.
#[tactic(auto, unfolding(kinds::specs::Rows::rows_of))]
pub fn types_of<'a>(arch: Arch) -> &'a [u8]
    ensures { result.now ≡ rows_of arch }
{
    match arch {
        Arch::X32 => &kinds::X32_TYPES,
        Arch::X64 => &kinds::X64_TYPES,
    }
}

impl<'a> Resolver<'a> {
    // What becomes of relocation k of a section: `records` says where its records are, `word` is what is kept of its home. Compiled into the loop of each pass
    // over the relocations.
    #[inline(always)]
    #[tactic(auto, using(crate::specs::Outcome::by_record, kinds::specs::Rows::row_by_rows))]
    pub fn outcome_of(self, records: Records, word: u32, k: u32) -> Outcome
        ensures { result ≡ by_home self.entry.arch (target_in self.entry.homes.now self.entry.undef self.entry.codes.now) (word_home word) (relocation_in self.entry.file.now (record_at records k)) }
    {
        let r = object::read_relocation(self.file, records, k);
        let target = targets::target_in(self.homes, self.undef, self.codes, r.symbol);
        outcomes::outcome_at(word, r.address, kinds::row_in(self.types, r.typ), target)
    }
}
