// The string table: the long names, one behind the other.
use crate::shape::Plan;
use crate::{shape, symbol_rows};

// The letter 'q' again and again, then four letters that rise with e.
fn put_long(f: &mut [u8], table: u32, offset: u32, size: u16, e: u16) {
    let at = table as usize + offset as usize;
    let rest = usize::from(size.saturating_sub(4));
    for k in 0..rest {
        le::put_u8(f, at + k, b'q');
    }
    le::put_u32(f, at + rest, symbol_rows::letters(e));
}

pub(crate) fn put_strings(f: &mut [u8], p: Plan) {
    let table = shape::string_table(p);
    le::put_u32(f, table as usize, shape::string_offset(p, p.long));
    for e in 0..p.long {
        put_long(f, table, shape::string_offset(p, e), p.length, e);
    }
}
