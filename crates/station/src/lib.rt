// What the station's host calls from C: survey, load, patch, read and the routine of an address, on numbers and lent bytes. Each answers 0 or the number of its
// refusal; what else there is to say goes to the front of a lent buffer, as words (docs/HOST.md). Too short a buffer for that is 13, where 13
// stands in the operation's order, and then nothing is written.
#![tactic(auto)]

ghost use Rattle.std.specs.Prelude.{◌≡◌};
ghost use Rattle.refusal.specs.Refusal.{code_number};
ghost use Rattle.storage.specs.Storage.{storage};
ghost use Rattle.station.specs.Station.{
  CountsTold,
  ProgressTold,
  RoutineTold,
  unstored_code,
  unlaid_code,
  untold_patch_code,
  Surveyed,
  Loaded,
  Patched,
  Read,
  Traced,
};

use arch::VA;
use nearest::Routine;
use patch::Progress;
use refusal::Refusal;
use storage::Lent;
use survey::Counts;

// The ten words of survey's and load's counts.
pub const COUNTS_BYTES: usize = 80;

// The two words of patch: the position behind the portion, and 1 where the list ends there.
pub const PROGRESS_BYTES: usize = 16;

// The two words of the routine that an address is in: the symbol's number in the list, and the distance.
pub const ROUTINE_BYTES: usize = 16;

// 0, or the number of the refusal.
fn code<T: Copy>(answer: Result<T, Refusal>) -> u64
    ensures { result ≡ code_number answer }
{
    match answer {
        Ok(_) => 0,
        Err(r) => r.number(),
    }
}

fn tell_counts(answer: Result<Counts, Refusal>, out: &mut [u8]) -> Result<(), Refusal>
    ensures { CountsTold answer out.old out.new result }
{
    let counts = answer?;
    if out.len() < COUNTS_BYTES {
        return Err(Refusal::Storage);
    }
    results::write_counts(counts, out);
    Ok(())
}

fn tell_progress(answer: Result<Progress, Refusal>, out: &mut [u8]) -> Result<(), Refusal>
    ensures { ProgressTold answer out.old out.new result }
{
    let progress = answer?;
    results::write_progress(progress.position, progress.done, out);
    Ok(())
}

fn tell_routine(answer: Result<Routine, Refusal>, out: &mut [u8]) -> Result<(), Refusal>
    ensures { RoutineTold answer out.old out.new result }
{
    let routine = answer?;
    results::write_routine(routine.symbol, routine.distance, out);
    Ok(())
}

// The counts of a file: 80 bytes.
pub fn nelgrauf_survey(file: &[u8], counts: &mut [u8]) -> u64
    ensures { Surveyed file.now counts.old counts.new result }
{
    code(tell_counts(survey::survey(file), counts))
}

// What load is refused by behind its base where its counts have no room: 1 to 11, then 13.
fn unstored(file: &[u8]) -> Result<(), Refusal>
    ensures { result ≡ unstored_code file.now }
{
    survey::survey(file)?;
    Err(Refusal::Storage)
}

// The same from its base on: 12, 1 to 11, then 13.
fn unlaid(file: &[u8], base: VA) -> Result<(), Refusal>
    ensures { result ≡ unlaid_code file.now base.0 }
{
    if checks::base_ok(base) {
        unstored(file)
    } else {
        Err(Refusal::Base)
    }
}

// What patch is refused by where its progress has no room: 14, then 13.
#[tactic(auto, using(crate::proofs::Laws::unpatched))]
fn unpatched(fixups: &[u8], position: u64) -> Result<(), Refusal>
    ensures { result ≡ untold_patch_code fixups.now position }
{
    if position <= patch::fix_count(fixups) {
        Err(Refusal::Storage)
    } else {
        Err(Refusal::Position)
    }
}

// Tables, marks and image of a file at a base, and its counts.
pub fn nelgrauf_load(
    file: &[u8],
    base: u64,
    image: &mut [u8],
    marks: &mut [u8],
    sections: &mut [u8],
    symbols: &mut [u8],
    externs: &mut [u8],
    fixups: &mut [u8],
    skips: &mut [u8],
    counts: &mut [u8],
) -> u64
    ensures { Loaded file.now base
        (storage image.old marks.old sections.old symbols.old externs.old fixups.old skips.old)
        (storage image.new marks.new sections.new symbols.new externs.new fixups.new skips.new)
        counts.old counts.new result }
{
    if COUNTS_BYTES <= counts.len() {
        let mut lent = Lent {
            image,
            marks,
            sections,
            symbols,
            externs,
            fixups,
            skips,
        };
        let answer = load::load(file, VA(base), &mut lent);
        code(tell_counts(answer, counts))
    } else {
        code(unlaid(file, VA(base)))
    }
}

// `number` fixups of the list from `position` on, or all that are left; where that ended and whether the list did: 16 bytes.
pub fn nelgrauf_patch(
    base: u64,
    image: &mut [u8],
    marks: &[u8],
    fixups: &[u8],
    number: u64,
    position: u64,
    progress: &mut [u8],
) -> u64
    ensures { Patched base marks.now fixups.now number position image.old image.new progress.old progress.new result }
{
    if PROGRESS_BYTES <= progress.len() {
        code(tell_progress(
            patch::patch(VA(base), image, marks, fixups, number, position),
            progress,
        ))
    } else {
        code(unpatched(fixups, position))
    }
}

// The bytes of the image from an address on, as many as `out` takes.
#[tactic(auto, using(crate::proofs::Laws::read_told))]
pub fn nelgrauf_read(base: u64, image: &[u8], marks: &[u8], address: u64, out: &mut [u8]) -> u64
    ensures { Read base image.now marks.now address out.old out.new result }
{
    code(aspace::absolute::read_into(image, marks, VA(base), VA(address), out))
}

// The listed symbol that an address belongs to, by the two tables as load wrote them: 16 bytes.
pub fn nelgrauf_routine(sections: &[u8], symbols: &[u8], address: u64, nearest: &mut [u8]) -> u64
    ensures { Traced sections.now symbols.now address nearest.old nearest.new result }
{
    if ROUTINE_BYTES <= nearest.len() {
        code(tell_routine(module::routine_in(sections, symbols, VA(address)), nearest))
    } else {
        code::<()>(Err(Refusal::Storage))
    }
}
