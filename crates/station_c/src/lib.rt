// The station's functions as C calls them: each is the one of `station` under the same name, with the same clauses. A slice is passed as a pointer and a length
// (`host/nelgrauf.h`).
#![tactic(auto)]

ghost use Rattle.storage.specs.Storage.{storage};
ghost use Rattle.station.specs.Station.{Surveyed, Loaded, Patched, Read, Traced};

// The counts of a file: 80 bytes.
#[unsafe(no_mangle)]
pub extern "C" fn nelgrauf_survey(file: &[u8], counts: &mut [u8]) -> u64
    ensures { Surveyed file.now counts.old counts.new result }
{
    station::nelgrauf_survey(file, counts)
}

// Tables, marks and image of a file at a base, and its counts.
#[unsafe(no_mangle)]
pub extern "C" fn nelgrauf_load(
    file: &[u8],
    base: u64,
    image: &mut [u8],
    marks: &mut [u8],
    sections: &mut [u8],
    symbols: &mut [u8],
    externs: &mut [u8],
    fixups: &mut [u8],
    skips: &mut [u8],
    counts: &mut [u8],
) -> u64
    ensures { Loaded file.now base
        (storage image.old marks.old sections.old symbols.old externs.old fixups.old skips.old)
        (storage image.new marks.new sections.new symbols.new externs.new fixups.new skips.new)
        counts.old counts.new result }
{
    station::nelgrauf_load(
        file, base, image, marks, sections, symbols, externs, fixups, skips, counts,
    )
}

// `number` fixups of the list from `position` on, or all that are left; where that ended and whether the list did: 16 bytes.
#[unsafe(no_mangle)]
pub extern "C" fn nelgrauf_patch(
    base: u64,
    image: &mut [u8],
    marks: &[u8],
    fixups: &[u8],
    number: u64,
    position: u64,
    progress: &mut [u8],
) -> u64
    ensures { Patched base marks.now fixups.now number position image.old image.new progress.old progress.new result }
{
    station::nelgrauf_patch(base, image, marks, fixups, number, position, progress)
}

// The bytes of the image from an address on, as many as `out` takes.
#[unsafe(no_mangle)]
pub extern "C" fn nelgrauf_read(
    base: u64,
    image: &[u8],
    marks: &[u8],
    address: u64,
    out: &mut [u8],
) -> u64
    ensures { Read base image.now marks.now address out.old out.new result }
{
    station::nelgrauf_read(base, image, marks, address, out)
}

// The listed symbol that an address belongs to, by the two tables as load wrote them: 16 bytes.
#[unsafe(no_mangle)]
pub extern "C" fn nelgrauf_routine(
    sections: &[u8],
    symbols: &[u8],
    address: u64,
    nearest: &mut [u8],
) -> u64
    ensures { Traced sections.now symbols.now address nearest.old nearest.new result }
{
    station::nelgrauf_routine(sections, symbols, address, nearest)
}
