// The table of extern names.
ghost use Rattle.std.specs.Prelude.{◌≡◌, ◌*◌, false};
ghost use Rattle.limits.specs.Records.{EXTERN_BYTES};
ghost use Rattle.le.specs.Le.{splice};
ghost use Rattle.stops.specs.Stops.{stops_of};
ghost use Rattle.words.specs.Words.{word_bytes};
ghost use Rattle.tables.specs.Externs.{extern_words, extern_table};

use arch::{RVA, VA};
use object::Header;

#[tactic(auto, using(crate::proofs::Laws::extern_put))]
fn put_extern(
    f: &[u8],
    h: Header,
    base: VA,
    undef: RVA,
    slots: &[u32],
    stops: &[u32],
    e: u32,
    b: &mut [u8],
)
    requires { stops.now ≡ stops_of false f.now h }
    ensures { b.new ≡ splice b.old (EXTERN_BYTES * e) (word_bytes (extern_words f.now h base.0 undef.0 slots.now e)) }
{
    let j = le::word_at(slots, e as usize);
    let name = stops::symbol_name(f, h, stops, j);
    let start = base.0.wrapping_add(undef.0);
    let slot = start.wrapping_add(limits::SLOT_SIZE * u64::from(e));
    let ws = [
        slot,
        u64::from(j),
        names::name_start(name),
        names::name_length(name),
    ];
    words::put(b, limits::EXTERN_BYTES * (e as usize), &ws);
}

// The first n names of `slots`.
#[tactic(auto, using(crate::proofs::Laws::externs_loop))]
fn list_externs(
    f: &[u8],
    h: Header,
    base: VA,
    undef: RVA,
    slots: &[u32],
    stops: &[u32],
    n: u32,
    b: &mut [u8],
)
    requires { stops.now ≡ stops_of false f.now h }
    ensures { b.new ≡ splice b.old 0 (extern_table f.now h base.0 undef.0 slots.now n) }
{
    for e in 0..n {
        put_extern(f, h, base, undef, slots, stops, e, b);
    }
}

// The table; long names are found by the noted stops.
#[tactic(auto, using(stops::specs::NameLaws::kept))]
pub fn write_externs(f: &[u8], h: Header, base: VA, undef: RVA, slots: &[u32], n: u32, b: &mut [u8])
    ensures { b.new ≡ splice b.old 0 (extern_table f.now h base.0 undef.0 slots.now n) }
{
    let mut stops = [0u32; stops::BLOCKS];
    let m = stops::fill_stops(f, h, false, &mut stops);
    list_externs(f, h, base, undef, slots, le::words(&stops, m), n, b);
}
