// The section table.
ghost use Rattle.std.specs.Prelude.{◌≡◌, ◌*◌, true};
ghost use Rattle.limits.specs.Records.{SECTION_BYTES};
ghost use Rattle.le.specs.Le.{splice};
ghost use Rattle.stops.specs.Stops.{stops_of};
ghost use Rattle.homes.specs.Home.{home_in};
ghost use Rattle.words.specs.Words.{word_bytes};
ghost use Rattle.tables.specs.Sections.{section_words, undef_words, section_table};

use arch::{PAGE_SIZE, RVA, VA};
use object::Header;

// UNDEF can be read.
const READ: u64 = 1;

// Section i's record, at place n of the table.
#[tactic(auto, using(crate::proofs::Laws::section_put))]
fn put_section(
    f: &[u8],
    h: Header,
    base: VA,
    homes: &[u32],
    stops: &[u32],
    i: u32,
    n: u32,
    b: &mut [u8],
)
    requires { stops.now ≡ stops_of true f.now h }
    ensures { b.new ≡ splice b.old (SECTION_BYTES * n) (word_bytes (section_words f.now h base.0 (home_in homes.now) i)) }
{
    let at = homes::start_in(homes, i);
    let start = base.0.wrapping_add(at.0);
    let end = start.wrapping_add(object::range_length(f, h, i));
    let name = stops::section_name(f, h, stops, i);
    let ws = [
        start,
        end,
        u64::from(object::file_start(f, h, i)),
        object::file_end(f, h, i),
        u64::from(object::permissions(f, h, i)),
        names::name_start(name),
        names::name_length(name),
        u64::from(i) + 1,
    ];
    words::put(b, limits::SECTION_BYTES * (n as usize), &ws);
}

#[tactic(auto, using(crate::proofs::Laws::undef_put))]
fn put_undef(base: VA, undef: RVA, n: u32, b: &mut [u8])
    ensures { b.new ≡ splice b.old (SECTION_BYTES * n) (word_bytes (undef_words base.0 undef.0)) }
{
    let start = base.0.wrapping_add(undef.0);
    let end = start.wrapping_add(PAGE_SIZE);
    let ws = [start, end, 0, 0, READ, 0, 0, 0];
    words::put(b, limits::SECTION_BYTES * (n as usize), &ws);
}

// A record for each loaded section, and UNDEF's.
#[tactic(auto, using(crate::proofs::Laws::sections_loop))]
fn list_sections(
    f: &[u8],
    h: Header,
    base: VA,
    homes: &[u32],
    stops: &[u32],
    undef: RVA,
    b: &mut [u8],
)
    requires { stops.now ≡ stops_of true f.now h }
    ensures { b.new ≡ splice b.old 0 (section_table f.now h base.0 (home_in homes.now) undef.0) }
{
    let mut n = 0;
    for i in 0..u32::from(h.sections) {
        if object::is_loaded(f, h, i) {
            put_section(f, h, base, homes, stops, i, n, b);
            n += 1;
        }
    }
    put_undef(base, undef, n, b);
}

// The table; long names are found by the noted stops.
#[tactic(auto, using(stops::specs::NameLaws::kept))]
pub fn write_sections(f: &[u8], h: Header, base: VA, homes: &[u32], undef: RVA, b: &mut [u8])
    ensures { b.new ≡ splice b.old 0 (section_table f.now h base.0 (home_in homes.now) undef.0) }
{
    let mut stops = [0u32; stops::BLOCKS];
    let n = stops::fill_stops(f, h, true, &mut stops);
    list_sections(f, h, base, homes, le::words(&stops, n), undef, b);
}
