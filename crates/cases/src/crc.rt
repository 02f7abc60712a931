// CRC-32, bit by bit.
fn bit(x: u32) -> u32 {
    if x % 2 == 1 {
        (x / 2) ^ 0xEDB88320
    } else {
        x / 2
    }
}

fn byte(x: u32) -> u32 {
    bit(bit(bit(bit(bit(bit(bit(bit(x))))))))
}

// The CRC-32 of bytes, as zlib computes it.
pub fn crc32(s: &[u8]) -> u64 {
    let mut x: u32 = 0xFFFFFFFF;
    for b in s {
        x = byte(x ^ u32::from(*b));
    }
    u64::from(x ^ 0xFFFFFFFF)
}
