// Questions to the tables of symbols and of extern names that load wrote. Numbers are those of the records, from 0.
#![tactic(auto)]

ghost use Rattle.std.specs.Prelude.{◌≡◌, ℕ, ◌*◌, ◌<◌, List};
ghost use Rattle.std.proofs.Common.{rules};
ghost use Rattle.limits.specs.Records.{WORD, SYMBOL_WORDS, EXTERN_WORDS, NAME_LENGTH};
ghost use Rattle.symbols.specs.Symbol.{
  count,
  name_of,
  last_named,
  symbol_record,
  extern_record,
  entry,
  symbol_at,
};

use arch::VA;
use limits::{
    ADDRESS, EXTERN_NUMBER, EXTERN_WORDS, NAME_LENGTH, NAME_START, SYMBOL_HOME, SYMBOL_KIND,
    SYMBOL_NUMBER, SYMBOL_WORDS, WORD,
};
use refusal::Refusal;

// A record of a table that load wrote, of whole words; those of its name stand alike in every such table.
pub trait Record: Sized {
    // How many words it has.
    const WORDS: u8;

    ghost WORDS: { ℕ };

    // What record k of a table says.
    ghost record_of: { List ℕ → ℕ → Self };

    fn read(table: &[u8], k: usize) -> Self
        ensures { result ≡ record_of table.now k };

    // The words of the name are among them.
    ghost named: { NAME_LENGTH < WORDS };
}

// A record of the symbol table, as docs/HOST.md has it.
#[derive(Clone, Copy, PartialEq, Eq)]
pub struct Symbol {
    pub address: VA,
    pub kind: u64,
    pub name_start: u64,
    pub name_length: u64,
    pub number: u64,
    pub home: u64,
}

impl Record for Symbol {
    const WORDS: u8 = SYMBOL_WORDS;

    ghost WORDS = { SYMBOL_WORDS };

    ghost record_of = { symbol_record };

    fn read(table: &[u8], k: usize) -> Symbol {
        Symbol {
            address: VA(words::word(table, SYMBOL_WORDS, k, ADDRESS)),
            kind: words::word(table, SYMBOL_WORDS, k, SYMBOL_KIND),
            name_start: words::word(table, SYMBOL_WORDS, k, NAME_START),
            name_length: words::word(table, SYMBOL_WORDS, k, NAME_LENGTH),
            number: words::word(table, SYMBOL_WORDS, k, SYMBOL_NUMBER),
            home: words::word(table, SYMBOL_WORDS, k, SYMBOL_HOME),
        }
    }

    ghost named = { Prim.search rules };
}

// A record of the table of extern names.
#[derive(Clone, Copy, PartialEq, Eq)]
pub struct Extern {
    pub address: VA,
    pub number: u64,
    pub name_start: u64,
    pub name_length: u64,
}

impl Record for Extern {
    const WORDS: u8 = EXTERN_WORDS;

    ghost WORDS = { EXTERN_WORDS };

    ghost record_of = { extern_record };

    fn read(table: &[u8], k: usize) -> Extern {
        Extern {
            address: VA(words::word(table, EXTERN_WORDS, k, ADDRESS)),
            number: words::word(table, EXTERN_WORDS, k, EXTERN_NUMBER),
            name_start: words::word(table, EXTERN_WORDS, k, NAME_START),
            name_length: words::word(table, EXTERN_WORDS, k, NAME_LENGTH),
        }
    }

    ghost named = { Prim.search rules };
}

// How many records a table has.
pub fn count<R: Record>(table: &[u8]) -> usize
    ensures { result ≡ count R.WORDS table.now }
{
    table.len() / (WORD * usize::from(R::WORDS))
}

// Record k, from 0; at the count or above it is 20.
#[tactic(auto, unfolding(crate::specs::Symbol::entry, util::specs::Pick::pick))]
pub fn entry<R: Record>(table: &[u8], k: usize) -> Result<R, Refusal>
    ensures { result ≡ entry R.WORDS R.record_of table.now k }
{
    if k < count::<R>(table) {
        Ok(R::read(table, k))
    } else {
        Err(Refusal::NoEntry)
    }
}

// The name of record k, as that part of the file; none at the count or above.
#[tactic(auto, unfolding(crate::specs::Symbol::name_of, util::specs::Pick::pick))]
pub fn name_of<'a, R: Record>(file: &'a [u8], table: &[u8], k: usize) -> &'a [u8]
    ensures { result.now ≡ name_of R.WORDS (count R.WORDS table.now) file.now table.now k }
{
    if k < count::<R>(table) {
        let at = words::word(table, R::WORDS, k, NAME_START);
        let length = words::word(table, R::WORDS, k, NAME_LENGTH);
        le::part(file, at as usize, length as usize)
    } else {
        &[]
    }
}

// The number of the last record with that name.
pub fn named<R: Record>(file: &[u8], table: &[u8], name: &[u8]) -> Result<u64, Refusal>
    ensures { result ≡ last_named R.WORDS (count R.WORDS table.now) file.now table.now name.now }
{
    (0..count::<R>(table))
        .rev()
        .find(|k| names::same(name_of::<R>(file, table, *k), name))
        .map(|k| k as u64)
        .ok_or(Refusal::NoEntry)
}

// The number of the first symbol from `from` on at that address: with one more than the answer it gives the next.
pub fn symbol_at(table: &[u8], va: VA, from: usize) -> Result<u64, Refusal>
    ensures { result ≡ symbol_at table.now va from }
{
    (from..count::<Symbol>(table))
        .find(|k| words::word(table, SYMBOL_WORDS, *k, ADDRESS) == va.0)
        .map(|k| k as u64)
        .ok_or(Refusal::NoEntry)
}
