// Long names without walking them. Names may share bytes of the string table, so to walk each to its end could take names times bytes. Here one pass notes where the
// characters from each block's start stop, and then a name costs a block at most. `section` says whose names: a section's may be empty, and has visible bytes alone.
#![tactic(auto)]

ghost use Rattle.std.specs.Prelude.{◌≡◌, ◌-◌, ◌*◌, ◌/◌, ◌+◌, ◌<◌, ◌≤◌, ◌^◌, length};
ghost use Rattle.le.specs.Le.{splice};
ghost use Rattle.names.specs.Name.{is_good};
ghost use Rattle.stops.specs.Stops.{BLOCK, strings, skip, blocks_of, block_stop, stop_words, stop_count, stops_of, stop_by};
ghost use Rattle.stops.specs.StopLaws.{Serves};
ghost use Rattle.stops.specs.Names.{may_end, field, field_ends, field_by, long_by, slash_name_by, symbol_name_by, section_name_by};

use names::Name;
use object::Header;

// The bytes of a block.
const BLOCK: usize = 16384;

// The blocks whose stop is noted: those of a table of 4 MiB.
pub const BLOCKS: usize = 256;

// How many tails the character may have that a block's start cuts in two.
const TAILS: usize = 3;

// The string table's bytes.
#[tactic(auto, using(crate::proofs::Laws::table))]
fn strings(f: &[u8], h: Header) -> &[u8]
    ensures result_value { result.now ≡ strings f.now h }
    ensures result_len_bound { length result.now < 2 ^ 32 }
{
    let length = object::string_length(f, h);
    le::part(f, object::string_table(h), length as usize)
}

// Where the first character of its own may begin behind place i.
#[tactic(auto, using(crate::proofs::Laws::skip_loop))]
fn skip(t: &[u8], i: usize) -> usize
    ensures { result ≡ skip t.now i }
{
    let end = i + le::room(t.len(), i, TAILS);
    for k in i..end {
        if !utf8::is_tail(t[k]) {
            return k;
        }
    }
    end
}

// The stop of the block behind block b, if s is one that serves it too.
#[tactic(auto, using(crate::proofs::Laws::next_ways))]
fn next_stop(t: &[u8], section: bool, b: usize, s: usize) -> usize
    requires { (b < length t.now / BLOCK) × Serves section t.now ((b + 1) * BLOCK) s }
    ensures { result ≡ block_stop section t.now b }
{
    let o = skip(t, (b + 1) * BLOCK);
    if o <= s && !utf8::is_tail(le::byte_at(t, o)) {
        s
    } else {
        chars::stop(t, o, section)
    }
}

// The stops of n blocks behind the first: each byte is looked at once, as a stop that lies further on serves the blocks before it too.
#[tactic(auto, using(crate::proofs::Laws::stops_loop))]
fn note_stops(t: &[u8], section: bool, n: usize, stops: &mut [u32])
    requires { (length t.now < 2 ^ 32) × (n ≤ length t.now / BLOCK) }
    ensures { stops.new ≡ splice stops.old 0 (stop_words section t.now n) }
{
    let mut s = 0;
    for b in 0..n {
        s = next_stop(t, section, b, s);
        le::put_word(stops, b, s as u32);
    }
}

// How many blocks are noted.
fn blocks_of(length: usize) -> usize
    ensures { result ≡ blocks_of length }
{
    (length / BLOCK).min(BLOCKS)
}

// The stops of the string table's blocks, and how many there are.
#[tactic(auto, using(crate::proofs::Laws::filling))]
pub fn fill_stops(f: &[u8], h: Header, section: bool, stops: &mut [u32]) -> usize
    ensures value { result ≡ stop_count f.now h }
    ensures stops_after { stops.new ≡ splice stops.old 0 (stops_of section f.now h) }
{
    let t = strings(f, h);
    let n = blocks_of(t.len());
    note_stops(t, section, n, stops);
    n
}

// The stop from o by those words.
#[tactic(auto, using(crate::proofs::Laws::stop_ways))]
fn stop_by(t: &[u8], section: bool, stops: &[u32], o: usize) -> usize
    ensures { result ≡ stop_by section t.now stops.now o }
{
    let d = BLOCK - o % BLOCK;
    let s = chars::walk(t, o, d, section);
    if s - o < d {
        return s;
    }
    if utf8::is_tail(le::byte_at(t, s)) {
        return s;
    }
    match stops.get(o / BLOCK) {
        Some(&noted) => noted as usize,
        None => chars::stop(t, s, section),
    }
}

// In a table of `length` bytes a name at o may end at s.
#[tactic(auto, using(util::specs::Pick::picks), unfolding(crate::specs::Names::may_end))]
fn may_end(t: &[u8], length: usize, section: bool, o: usize, s: usize) -> bool
    ensures { result ≡ may_end t.now length section o s }
{
    object::LENGTH_SIZE <= o
        && s < length
        && le::byte_at(t, s) == 0
        && (o < s || (section && o == s))
}

// There is a good long name at o.
#[tactic(auto, using(crate::proofs::Laws::long_test))]
fn long_ok(f: &[u8], h: Header, stops: &[u32], section: bool, o: usize) -> bool
    ensures { result ≡ is_good (long_by f.now h stops.now section o) }
{
    let t = strings(f, h);
    let length = object::string_length(f, h) as usize;
    may_end(t, length, section, o, stop_by(t, section, stops, o))
}

// The long name at o.
#[tactic(auto, using(crate::proofs::Laws::long_ways))]
fn long_name(f: &[u8], h: Header, stops: &[u32], section: bool, o: usize) -> Option<Name>
    ensures { result ≡ long_by f.now h stops.now section o }
{
    let t = strings(f, h);
    let length = object::string_length(f, h);
    let s = stop_by(t, section, stops, o);
    if may_end(t, length as usize, section, o, s) {
        Some(Name {
            at: object::string_table(h) + o,
            length: s - o,
        })
    } else {
        None
    }
}

// The bytes of the name's field at `at`.
fn field(f: &[u8], at: usize) -> &[u8]
    ensures { result.now ≡ field f.now at }
{
    le::part(f, at, object::NAME_SIZE)
}

// A name of s bytes may stand in a field.
#[tactic(auto, using(util::specs::Pick::picks), unfolding(crate::specs::Names::field_ends))]
fn field_ends(t: &[u8], section: bool, s: usize) -> bool
    ensures { result ≡ field_ends t.now section s }
{
    (0 < s || section) && le::byte_at(t, s) == 0
}

// There is a good name in the field at `at`.
#[tactic(auto, using(crate::proofs::Laws::field_test))]
fn field_ok(f: &[u8], section: bool, at: usize) -> bool
    ensures { result ≡ is_good (field_by f.now section at) }
{
    let t = field(f, at);
    field_ends(t, section, chars::stop_short(t, section))
}

// The name in the field at `at`.
#[tactic(auto, using(crate::proofs::Laws::field_ways))]
fn field_name(f: &[u8], section: bool, at: usize) -> Option<Name>
    ensures { result ≡ field_by f.now section at }
{
    let t = field(f, at);
    let s = chars::stop_short(t, section);
    if field_ends(t, section, s) {
        Some(Name { at, length: s })
    } else {
        None
    }
}

// The name of symbol j.
#[tactic(auto, using(util::specs::Pick::picks), unfolding(crate::specs::Names::symbol_name_by))]
pub fn symbol_name(f: &[u8], h: Header, stops: &[u32], j: u32) -> Option<Name>
    ensures { result ≡ symbol_name_by f.now h stops.now j }
{
    let at = object::symbol_record_at(h, j);
    if le::u32_at(f, at) == 0 {
        let o = le::u32_at(f, at + object::LONG_OFFSET_AT);
        long_name(f, h, stops, false, o as usize)
    } else {
        field_name(f, false, at)
    }
}

// Symbol j has a good name: its check alone, which a loop over all symbols has compiled into it.
#[tactic(auto, using(util::specs::Pick::picks), unfolding(crate::specs::Names::symbol_name_by))]
pub fn symbol_ok(f: &[u8], h: Header, stops: &[u32], j: u32) -> bool
    ensures { result ≡ is_good (symbol_name_by f.now h stops.now j) }
{
    let at = object::symbol_record_at(h, j);
    if le::u32_at(f, at) == 0 {
        let o = le::u32_at(f, at + object::LONG_OFFSET_AT);
        long_ok(f, h, stops, false, o as usize)
    } else {
        field_ok(f, false, at)
    }
}

#[tactic(auto, unfolding(crate::specs::Names::slash_name_by))]
fn slash_ok(f: &[u8], h: Header, stops: &[u32], d: Option<u64>) -> bool
    ensures { result ≡ is_good (slash_name_by f.now h stops.now d) }
{
    match d {
        Some(o) => long_ok(f, h, stops, true, o as usize),
        None => false,
    }
}

#[tactic(auto, using(util::specs::Pick::picks), unfolding(crate::specs::Names::slash_name_by))]
fn slash_name(f: &[u8], h: Header, stops: &[u32], d: Option<u64>) -> Option<Name>
    ensures { result ≡ slash_name_by f.now h stops.now d }
{
    long_name(f, h, stops, true, d? as usize)
}

// The name of section i.
#[tactic(auto, using(util::specs::Pick::picks), unfolding(crate::specs::Names::section_name_by))]
pub fn section_name(f: &[u8], h: Header, stops: &[u32], i: u32) -> Option<Name>
    ensures { result ≡ section_name_by f.now h stops.now i }
{
    let at = object::section_header_at(h, i);
    if le::byte_at(f, at) == names::SLASH {
        slash_name(f, h, stops, names::slash_offset(f, h, i))
    } else {
        field_name(f, true, at)
    }
}

// Section i has a good name: its check alone.
#[tactic(auto, using(util::specs::Pick::picks), unfolding(crate::specs::Names::section_name_by))]
pub fn section_ok(f: &[u8], h: Header, stops: &[u32], i: u32) -> bool
    ensures { result ≡ is_good (section_name_by f.now h stops.now i) }
{
    let at = object::section_header_at(h, i);
    if le::byte_at(f, at) == names::SLASH {
        slash_ok(f, h, stops, names::slash_offset(f, h, i))
    } else {
        field_ok(f, true, at)
    }
}
