// The numbers of standard input.
// A number with one more digit.
fn longer(v: u32, digit: u8) -> u32 {
    v.wrapping_mul(10).wrapping_add(u32::from(digit))
}

// Digits that stand together are a number; every other byte ends one. How many were ended.
fn numbers_of(text: &[u8], numbers: &mut [u32]) -> u16 {
    let mut n: u16 = 0;
    for &b in text {
        if b.is_ascii_digit() {
            let at = usize::from(n);
            le::put_word(numbers, at, longer(le::word_at(numbers, at), b - b'0'));
        } else {
            n = n.saturating_add(1);
        }
    }
    n
}

// As many as one buffer of text has.
pub(crate) fn read_numbers(numbers: &mut [u32]) -> u16 {
    let mut text = io::buffer();
    let n = io::read_full(0, &mut text);
    numbers_of(&text[..n], numbers)
}
