// Relocation records; record k of section i, from 0. An extended count's record is none of them.
ghost use Rattle.std.specs.Prelude.{◌≡◌};
ghost use Rattle.le.specs.Le.{get};
ghost use Rattle.object.specs.Format.{RELOCATION_SYMBOL_AT};
ghost use Rattle.object.specs.Relocation.{relocation_in, records_of, record_at, record_bytes};

use crate::format::{RELOCATION_SIZE, RELOCATION_SYMBOL_AT, RELOCATION_TYPE_AT, read_record};
use crate::sections::{is_extended, relocation_count, relocation_pointer};
use crate::{Header, Records, Relocation};

// Where the relocations of section i are, and how many, found once for all of them.
#[tactic(auto, unfolding(crate::specs::Relocation::records_of, util::specs::Pick::pick))]
pub fn records_of(f: &[u8], h: Header, i: u32) -> Records
    ensures { result ≡ records_of f.now h i }
{
    Records {
        pointer: relocation_pointer(f, h, i),
        first: u32::from(is_extended(f, h, i)),
        count: relocation_count(f, h, i),
    }
}

// What the bytes of a record say.
#[tactic(auto, unfolding(crate::specs::Relocation::relocation_in))]
fn fields_of(bytes: &[u8]) -> Relocation
    ensures { result ≡ relocation_in bytes.now 0 }
{
    Relocation {
        address: le::u32_at(bytes, 0),
        symbol: le::u32_at(bytes, RELOCATION_SYMBOL_AT),
        typ: le::u16_at(bytes, RELOCATION_TYPE_AT),
    }
}

// Relocation k of them, all its fields at once.
#[tactic(auto, using(crate::proofs::Laws::relocation_read))]
pub fn read_relocation(f: &[u8], records: Records, k: u32) -> Relocation
    ensures { result ≡ relocation_in f.now (record_at records k) }
{
    let at = records.pointer as usize + RELOCATION_SIZE * (records.first as usize + k as usize);
    read_record(f, at, RELOCATION_SIZE, fields_of)
}

// The bytes of these records, as far as the file has them.
#[tactic(auto, using(crate::proofs::Laws::bytes_are))]
pub fn record_bytes(f: &[u8], records: Records) -> &[u8]
    ensures { result.now ≡ record_bytes f.now records }
{
    let at = records.pointer as usize + RELOCATION_SIZE * (records.first as usize);
    le::part(f, at, RELOCATION_SIZE * (records.count as usize))
}

// The number of the symbol, in the bytes of one record.
pub fn symbol_number(bytes: &[u8]) -> u32
    ensures { result ≡ get 4 bytes.now RELOCATION_SYMBOL_AT }
{
    le::u32_at(bytes, RELOCATION_SYMBOL_AT)
}
