// The symbol table that load writes, as bytes: records of whole words. The crate `homes` says which symbols are listed, and where.
#![tactic(auto)]

ghost use Rattle.std.specs.Prelude.{◌≡◌, ◌*◌, false};
ghost use Rattle.limits.specs.Records.{SYMBOL_BYTES};
ghost use Rattle.le.specs.Le.{splice};
ghost use Rattle.object.specs.Symbol.{symbol_of};
ghost use Rattle.stops.specs.Stops.{stops_of};
ghost use Rattle.homes.specs.Home.{home_in, record_in};
ghost use Rattle.words.specs.Words.{word_bytes};
ghost use Rattle.symbol_table.specs.Symbols.{symbol_words, symbol_table};

use arch::VA;
use object::{Header, Symbol};

// The record of symbol j, whose record in the file is s, at place n of the table.
#[tactic(auto, using(crate::proofs::Laws::symbol_put))]
fn put_symbol(
    f: &[u8],
    h: Header,
    base: VA,
    homes: &[u32],
    stops: &[u32],
    s: Symbol,
    j: u32,
    n: u32,
    b: &mut [u8],
)
    requires { (stops.now ≡ stops_of false f.now h) × (s ≡ symbol_of f.now h j) }
    ensures { b.new ≡ splice b.old (SYMBOL_BYTES * n) (word_bytes (symbol_words f.now h base.0 (home_in homes.now) (record_in homes.now) j)) }
{
    let p = object::place_of(s);
    let offset = homes::listed_offset(homes, p, object::listed_of(s));
    let address = base.0.wrapping_add(offset.0);
    let name = stops::symbol_name(f, h, stops, j);
    let kind = u64::from(object::kind_of(s));
    let home = homes::record_of_place(homes, p);
    let ws = [
        address,
        kind,
        names::name_start(name),
        names::name_length(name),
        u64::from(j),
        u64::from(home),
    ];
    words::put(b, limits::SYMBOL_BYTES * (n as usize), &ws);
}

// A record for each listed symbol, in file order.
#[tactic(auto, using(crate::proofs::Laws::symbols_loop))]
fn write_listed(f: &[u8], h: Header, base: VA, homes: &[u32], stops: &[u32], b: &mut [u8])
    requires { stops.now ≡ stops_of false f.now h }
    ensures { b.new ≡ splice b.old 0 (symbol_table f.now h base.0 (home_in homes.now) (record_in homes.now)) }
{
    let mut n = 0;
    let mut left = 0;
    for j in 0..h.symbols {
        let s = object::read_symbol(f, h, j);
        if homes::is_listed(homes, left, s) {
            put_symbol(f, h, base, homes, stops, s, j, n, b);
            n += 1;
        }
        left = object::left_by(left, s.auxiliaries);
    }
}

// The table; long names are found by the noted stops.
#[tactic(auto, using(stops::specs::NameLaws::kept))]
pub fn write_symbols(f: &[u8], h: Header, base: VA, homes: &[u32], b: &mut [u8])
    ensures { b.new ≡ splice b.old 0 (symbol_table f.now h base.0 (home_in homes.now) (record_in homes.now)) }
{
    let mut stops = [0u32; stops::BLOCKS];
    let n = stops::fill_stops(f, h, false, &mut stops);
    write_listed(f, h, base, homes, le::words(&stops, n), b);
}
