// The extern names, from get_coff_extern_names: kept as symbol numbers, sorted by the bytes of their names.
#![tactic(auto)]

ghost use Rattle.std.specs.Prelude.{◌≡◌, [], ◌∷◌, ◌+◌, ◌-◌, ◌≤◌, ◌<◌, length, replicate};
ghost use Rattle.le.specs.Le.{splice};
ghost use Rattle.object.specs.Section.{relocation_count};
ghost use Rattle.codes.specs.Code.{puts_in};
ghost use Rattle.names.specs.Name.{span_text, symbol_text};
ghost use Rattle.order.specs.Key.{KEY_BYTES, key};
ghost use Rattle.limits.specs.Limits.{MAX_EXTERNS, EXTERN_ROOM};
ghost use Rattle.externs.specs.Externs.{extern_records, externs_by, names_of, slot_words, Holds};
ghost use Rattle.externs.specs.Held.{held, put_at, lower_at, Placed, Inserted};
ghost use Rattle.externs.specs.Keys.{symbol_key, KeysRise, Skipped, PutBoth, InStep, Keyed};
ghost use Rattle.externs.specs.Bisect.{name_order};
ghost use Rattle.externs.specs.Inserting.{Rising};
ghost use Rattle.externs.specs.Slot.{slot_of};
ghost use Rattle.externs.specs.Spent.{spent, spend, Kept, LeftFor, Passing};
ghost use Rattle.externs.specs.Slotted.{found_code, settled, slotted_code, slotted_at, slotted, CodesAfter};

use names::Span;
use object::Header;
use std::cmp::Ordering;

// How many keys are passed by a look at the last of them.
const LEAP: usize = 8;

// The order of a name and that of symbol x.
fn name_order(f: &[u8], h: Header, name: Span, x: u32) -> Ordering
    ensures { result ≡ name_order f.now h (span_text f.now name) x }
{
    order::compare(f, name, names::symbol_span(f, h, x))
}

// From p on, behind keys of the first n that are lower, so many at a time as rise up to one that is.
fn leap(keys: &[u64], n: usize, p: usize, key: u64) -> usize
    requires { (n ≤ length keys.now) × (p ≤ n) × KeysRise keys.now n }
    ensures { Skipped keys.now n p key result }
{
    let mut q = p;
    // A `while`, as it goes on by eight keys.
    while LEAP <= n - q {
        if key <= keys[q + (LEAP - 1)] {
            return q;
        }
        q += LEAP;
    }
    q
}

// From p on, behind all keys that are lower, of the first n.
#[tactic(auto, using(crate::proofs::Laws::skip_loop))]
fn skip(keys: &[u64], n: usize, p: usize, key: u64) -> usize
    requires { (n ≤ length keys.now) × (p ≤ n) × KeysRise keys.now n }
    ensures { Skipped keys.now n p key result }
{
    for q in leap(keys, n, p, key)..n {
        if key <= keys[q] {
            return q;
        }
    }
    n
}

// The key of symbol j's name.
fn symbol_key(f: &[u8], h: Header, j: u32) -> u64
    ensures { result ≡ symbol_key f.now h j }
{
    order::key(f, names::symbol_span(f, h, j))
}

// Where j, whose name has that key, goes among the first n, or where its name is. Only names with equal keys are compared.
fn find(
    f: &[u8],
    h: Header,
    slots: &[u32],
    keys: &[u64],
    n: usize,
    j: u32,
    key: u64,
) -> Result<usize, usize>
    requires { (n ≤ length slots.now) × (n ≤ length keys.now) × InStep f.now h slots.now keys.now n × (key ≡ symbol_key f.now h j) × Rising f.now h (held n slots.now) }
    ensures { Placed f.now h j n (held n slots.now) result }
{
    let name = names::symbol_span(f, h, j);
    let mut p = skip(keys, n, 0, key);
    // A `while`, as it goes on by all lower keys.
    while p < n {
        if key < keys[p] {
            return Err(p);
        }
        match name_order(f, h, name, slots[p]) {
            Ordering::Less => {
                return Err(p);
            }
            Ordering::Equal => {
                return Ok(p);
            }
            Ordering::Greater => {
                p = skip(keys, n, p + 1, key);
            }
        }
    }
    Err(p)
}

// Makes room at p among the first n, and puts j and its key there.
#[tactic(auto, using(crate::proofs::Laws::put_copied))]
fn put_both(slots: &mut [u32], keys: &mut [u64], n: usize, p: usize, j: u32, key: u64)
    requires { (n < length slots.old) × (n < length keys.old) × (p ≤ n) }
    ensures { PutBoth slots.old keys.old n p j key slots.new keys.new }
{
    slots.copy_within(p..n, p + 1);
    slots[p] = j;
    keys.copy_within(p..n, p + 1);
    keys[p] = key;
}

// Of two symbols with one name, the lower number stays at p.
fn lower(slots: &mut [u32], n: usize, p: usize, j: u32)
    requires { (n < length slots.old) × (p < n) }
    ensures { held n slots.new ≡ lower_at p j (held n slots.old) }
{
    if j < slots[p] {
        slots[p] = j;
    }
}

fn insert(f: &[u8], h: Header, slots: &mut [u32], keys: &mut [u64], n: usize, j: u32) -> usize
    requires { (n < length slots.old) × (n < length keys.old) × InStep f.now h slots.old keys.old n × Rising f.now h (held n slots.old) }
    ensures inserted { Inserted f.now h j slots.old n slots.new result }
    ensures in_step { InStep f.now h slots.new keys.new result }
{
    let key = symbol_key(f, h, j);
    let spot = find(f, h, slots, keys, n, j, key);
    match spot {
        Err(p) => {
            put_both(slots, keys, n, p, j, key);
            n + 1
        }
        Ok(p) => {
            lower(slots, n, p, j);
            n
        }
    }
}

// The code of a symbol once its name was put: the same, without putting it.
#[tactic(auto, unfolding(crate::specs::Spent::spent, util::specs::Pick::pick))]
fn spent(c: u16) -> u16
    ensures { result ≡ spent c }
{
    match c {
        codes::UNDEF_EXTERN => codes::UNDEF_RECORD,
        _ => codes::SLOT,
    }
}

// Symbol j put its name: a second insertion would change nothing.
#[tactic(auto, using(crate::proofs::Spending::spending))]
fn spend(h: Header, codes: &mut [u16], j: u32)
    ensures { codes.new ≡ spend h codes.old j }
{
    if j < h.symbols {
        codes::put_code(codes, j, spent(codes::code_at(codes, j)));
    }
}

// Inserts j, once.
fn add(
    f: &[u8],
    h: Header,
    codes: &mut [u16],
    slots: &mut [u32],
    keys: &mut [u64],
    n: usize,
    j: u32,
) -> usize
    requires { (n < length slots.old) × (n < length keys.old) × Kept f.now h slots.old keys.old n }
    ensures inserted { Inserted f.now h j slots.old n slots.new result }
    ensures kept { Kept f.now h slots.new keys.new result }
    ensures codes_after { codes.new ≡ spend h codes.old j }
{
    let next = insert(f, h, slots, keys, n, j);
    spend(h, codes, j);
    next
}

// From record k on, behind those that put no name; t has their bytes. A loop over nothing else, as most relocations of a file are passed by it.
#[tactic(auto, using(crate::proofs::Spending::pass_loop))]
fn pass(t: &[u8], codes: &[u16], k: usize) -> usize
    ensures { Passing t.now codes.now k result }
{
    let n = k.max(t.len() / object::RELOCATION_SIZE);
    for q in k..n {
        let at = object::RELOCATION_SIZE * q;
        let to = at + object::RELOCATION_SIZE;
        if codes::puts_in(codes, object::symbol_number(&t[at..to])) {
            return q;
        }
    }
    n
}

// Inserts what the relocations of section i put into the first n.
fn add_records(
    f: &[u8],
    h: Header,
    codes: &mut [u16],
    slots: &mut [u32],
    keys: &mut [u64],
    n: usize,
    i: u32,
) -> Option<usize>
    requires { (n ≤ MAX_EXTERNS) × (MAX_EXTERNS < length slots.old) × (MAX_EXTERNS < length keys.old) × Kept f.now h slots.old keys.old n }
    ensures holds { Holds (extern_records f.now h (puts_in codes.old) i (held n slots.old) (relocation_count f.now h i)) slots.new result }
    ensures left_for { LeftFor f.now h codes.old codes.new slots.new keys.new result }
{
    let records = object::records_of(f, h, i);
    let bytes = object::record_bytes(f, records);
    let m = records.count as usize;
    let mut count = n;
    let mut k: usize = 0;
    // A `while`, as `pass` goes on by all records that put no name.
    while k < m {
        let r = object::read_relocation(f, records, k as u32);
        let j = r.symbol;
        if codes::puts_in(codes, j) {
            let next = add(f, h, codes, slots, keys, count, j);
            if limits::MAX_EXTERNS < next {
                return None;
            }
            count = next;
            k = pass(bytes, codes, k + 1);
        } else {
            k = pass(bytes, codes, k + 1);
        }
    }
    Some(count)
}

// `keys` are those of the names that `slots` holds.
#[tactic(auto, using(crate::proofs::Spending::externs_loop))]
fn fill(
    f: &[u8],
    h: Header,
    codes: &mut [u16],
    slots: &mut [u32],
    keys: &mut [u64],
) -> Option<usize>
    requires { (MAX_EXTERNS < length slots.old) × (MAX_EXTERNS < length keys.old) }
    ensures holds { Holds (externs_by f.now h (puts_in codes.old)) slots.new result }
    ensures left_for { LeftFor f.now h codes.old codes.new slots.new keys.new result }
{
    let mut count = 0;
    for i in 0..u32::from(h.sections) {
        count = add_records(f, h, codes, slots, keys, count, i)?;
    }
    Some(count)
}

// Zeros from `from` on.
#[tactic(auto, using(crate::proofs::Laws::clear_loop))]
fn clear(slots: &mut [u32], from: usize)
    ensures { slots.new ≡ splice slots.old from (replicate (length slots.old - from) 0) }
{
    for i in from..slots.len() {
        le::put_word(slots, i, 0);
    }
}

// The order of a name, whose key is `own`, and that of symbol x, whose key is `other`. Only names with equal keys are compared.
// It does not call name_order, which the compiler puts in line only where `find` alone calls it.
#[tactic(auto, using(crate::proofs::Laws::entry_apart, crate::proofs::Laws::order_by))]
fn entry_order(f: &[u8], h: Header, name: Span, own: u64, x: u32, other: u64) -> Ordering
    requires { (own ≡ key KEY_BYTES (span_text f.now name)) × (other ≡ symbol_key f.now h x) }
    ensures { result ≡ name_order f.now h (span_text f.now name) x }
{
    match own.cmp(&other) {
        Ordering::Equal => order::compare(f, name, names::symbol_span(f, h, x)),
        by_keys => by_keys,
    }
}

// The slot of symbol j's name: its index in the list of externs, which is sorted. Of the n entries from lo the middle one decides.
fn slot_of(f: &[u8], h: Header, slots: &[u32], keys: &[u64], j: u32) -> Option<usize>
    requires { Keyed f.now h slots.now keys.now }
    ensures { result ≡ slot_of f.now h slots.now (symbol_text f.now h j) }
{
    let name = names::symbol_span(f, h, j);
    let key = order::key(f, name);
    let mut lo: usize = 0;
    let mut n = slots.len();
    // A `while`, and not the library's search in halves: that sees an entry without its place, and so without its key.
    while 0 < n {
        let half = n / 2;
        let middle = lo + half;
        match entry_order(f, h, name, key, slots[middle], keys[middle]) {
            Ordering::Less => {
                n = half;
            }
            Ordering::Equal => {
                return Some(middle);
            }
            Ordering::Greater => {
                lo = middle + 1;
                n = n - half - 1;
            }
        }
    }
    None
}

fn found_code(found: Option<usize>) -> u16
    ensures { result ≡ found_code found }
{
    match found {
        Some(e) => (e % codes::SPAN as usize + codes::SLOTS as usize) as u16,
        None => codes::NO_SLOT,
    }
}

// Of a code that takes no slot: nothing is put any more.
#[tactic(auto, unfolding(crate::specs::Slotted::settled, util::specs::Pick::pick))]
fn settled(c: u16) -> u16
    ensures { result ≡ settled c }
{
    match c {
        codes::UNDEF_EXTERN => codes::UNDEF_RECORD,
        _ => c,
    }
}

// Symbol j's code, once the names are known.
#[tactic(auto, using(crate::proofs::Laws::slot_ways))]
fn slotted_code(f: &[u8], h: Header, slots: &[u32], keys: &[u64], j: u32, c: u16) -> u16
    requires { Keyed f.now h slots.now keys.now }
    ensures { result ≡ slotted_code c (slot_of f.now h slots.now (symbol_text f.now h j)) }
{
    if matches!(c, codes::SLOT | codes::EXTERN) {
        found_code(slot_of(f, h, slots, keys, j))
    } else {
        settled(c)
    }
}

// The slot of symbol j, into its code.
fn put_slot(f: &[u8], h: Header, slots: &[u32], keys: &[u64], codes: &mut [u16], j: u32)
    requires { Keyed f.now h slots.now keys.now }
    ensures { codes.new ≡ splice codes.old j (slotted_at f.now h slots.now codes.old j ∷ []) }
{
    let c = slotted_code(f, h, slots, keys, j, codes::code_at(codes, j));
    codes::put_code(codes, j, c);
}

// The slots of all symbols, into their codes.
#[tactic(auto, using(crate::proofs::Laws::slots_loop))]
fn put_slots(f: &[u8], h: Header, slots: &[u32], keys: &[u64], codes: &mut [u16])
    requires { Keyed f.now h slots.now keys.now }
    ensures { codes.new ≡ slotted f.now h slots.now codes.old }
{
    for j in 0..h.symbols {
        put_slot(f, h, slots, keys, codes, j);
    }
}

// The names of all relocations, into `slots`, and how many they are, with each symbol's slot in its code; where they are too many no slot is kept, and the codes say
// nothing any more. The length is said again for a caller, who knows no more of a lent array than this.
pub fn collect(
    f: &[u8],
    h: Header,
    codes: &mut [u16],
    slots: &mut [u32; limits::EXTERN_ROOM],
) -> Option<usize>
    ensures value { result ≡ names_of (externs_by f.now h (puts_in codes.old)) }
    ensures slots_after { slots.new ≡ slot_words (externs_by f.now h (puts_in codes.old)) }
    ensures slots_len { length slots.new ≡ EXTERN_ROOM }
    ensures codes_after { CodesAfter f.now h codes.old (externs_by f.now h (puts_in codes.old)) codes.new }
{
    let mut keys = [0u64; limits::EXTERN_ROOM];
    let found = fill(f, h, codes, slots, &mut keys);
    match found {
        None => {
            clear(slots, 0);
            None
        }
        Some(n) => {
            clear(slots, n);
            put_slots(f, h, le::words(slots, n), &keys, codes);
            Some(n)
        }
    }
}
