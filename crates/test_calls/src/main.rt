// Questions to `util`, `arch`, `le`, `object` and `names`. Standard input has one a line: the crate, the function, then its numbers, decimal or behind `0x`,
// and its bytes as pairs of hexadecimal digits, `-` for none. `file` prepares the bytes that `le`, `object` and `names` are asked of. A line that begins with
// `--` says what the next ones are about. Each line is written again, and behind a question ` =` and the answer, its numbers in hexadecimal; where there is
// none, `no`. What is known of where the answers come from is docs/DECISIONS.md 58.
#![tactic(auto)]

mod bytes;
mod kinds_said;
mod numbers;
mod records;
mod symbol_rows;
mod texts;

fn main() {
    let mut text = io::large_buffer();
    let mut file = [0u8; 256];
    let n = io::read_full(0, &mut text);
    each(&text[..n], &mut file);
}

fn each(text: &[u8], file: &mut [u8]) {
    let mut n: usize = 0;
    for with_end in text.split_inclusive(|b| *b == b'\n') {
        n = line(with_end.strip_suffix(b"\n").unwrap_or(with_end), file, n);
    }
}

// One line over the first n bytes of the file; how many bytes the file has after it. A crate is known by its first letter.
fn line(line: &[u8], file: &mut [u8], n: usize) -> usize {
    let letter = le::byte_at(line, 0);
    let after = bytes::write(letter, line, file, n);
    cases::text(line);
    match letter {
        b'l' | b'u' | b'a' | b'o' | b'n' => answer(letter, line, le::part(file, 0, after)),
        _ => {}
    }
    cases::end();
    after
}

fn answer(letter: u8, line: &[u8], f: &[u8]) {
    cases::text(b" =");
    let a = cases::number_at(line, 2);
    let b = cases::number_at(line, 3);
    match letter {
        b'l' => bytes::answer(bytes::question(line), f, a),
        b'o' => records::answer(records::question(line), f, a, b),
        b'n' => texts::answer(texts::question(line), f, a, b),
        _ => numbers::answer(numbers::question(line), a, b, cases::number_at(line, 4)),
    }
}
