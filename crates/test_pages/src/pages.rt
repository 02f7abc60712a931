// Questions to `pagemap`.
use arch::RVA;
use refusal::Refusal;

// Behind what a write answers stands whether image and marks were kept, and the first word of the marks.
pub(crate) fn pagemap(line: &[u8], image: &mut [u8], marks: &mut [u8], given: &[u8]) {
    cases::text(b" =");
    let question = cases::place(
        cases::word(line, 1),
        b"write writezx map_empty set with_capacity from_items slice_into slice get probe page_count storage_ok ",
    );
    if question < 6 {
        let before = cases::crc32(image);
        let marks_before = cases::crc32(marks);
        let n = cases::number_at(line, 2);
        let at = RVA(cases::number_at(line, 3));
        let answer = write(
            question,
            n,
            at,
            image,
            marks,
            le::part(given, 0, n as usize),
        );
        cases::answer(answer.map_err(|r| r.number()));
        stands(before, marks_before, image, marks);
    } else {
        read(question, line, image, marks);
    }
}

// `write N AT` and `writezx N AT` of the bytes given, `map_empty N AT`, `set BYTE AT`, `with_capacity CAPACITY`, `from_items N`.
fn write(
    question: u8,
    n: u64,
    at: RVA,
    image: &mut [u8],
    marks: &mut [u8],
    items: &[u8],
) -> Result<(), Refusal> {
    match question {
        0 => pagewrite::write(image, marks, at, items),
        1 => pagewrite::writezx(image, marks, at, items),
        2 => pagewrite::map_empty(image, marks, at, n),
        3 => pagewrite::set(image, marks, at, (n % 256) as u8),
        4 => pagewrite::with_capacity(image, marks, RVA(n)),
        _ => pagewrite::from_items(image, marks, items),
    }
}

fn stands(before: u64, marks_before: u64, image: &[u8], marks: &[u8]) {
    if cases::crc32(marks) == marks_before {
        cases::kept(before, image);
    } else {
        cases::text(b" changed");
    }
    cases::text(b" marks");
    cases::hex(le::u64_at(marks, 0));
}

// `slice_into ROOM AT`, `slice ROOM START END`, `get AT`, `probe AT`, `page_count`, `storage_ok SIZE MARKS`.
fn read(question: u8, line: &[u8], image: &[u8], marks: &[u8]) {
    let first = cases::number_at(line, 2);
    let second = cases::number_at(line, 3);
    match question {
        6..=7 => buffer(
            question,
            first,
            second,
            cases::number_at(line, 4),
            image,
            marks,
        ),
        8 => cases::number(pagemap::get(image, marks, RVA(first)).map_err(|r| r.number())),
        9 => cases::yes(pagemap::probe(image, marks, RVA(first))),
        10 => cases::decimal(marks::page_count(marks)),
        11 => cases::yes(pagemap::storage_ok(first, second)),
        _ => {}
    }
}

// Into a buffer of `room` bytes, each 0xEE before.
fn buffer(question: u8, room: u64, start: u64, end: u64, image: &[u8], marks: &[u8]) {
    let mut bytes = [0xEEu8; 4104];
    let size = cases::least(room, bytes.len());
    filled(
        question,
        RVA(start),
        RVA(end),
        image,
        marks,
        &mut bytes[..size],
    );
}

fn filled(question: u8, start: RVA, end: RVA, image: &[u8], marks: &[u8], buf: &mut [u8]) {
    cases::answer(into(question, start, end, image, marks, buf).map_err(|r| r.number()));
    shown(buf);
}

fn into(
    question: u8,
    start: RVA,
    end: RVA,
    image: &[u8],
    marks: &[u8],
    buf: &mut [u8],
) -> Result<(), Refusal> {
    match question {
        6 => pagemap::slice_into(image, marks, start, buf),
        _ => pagemap::slice(image, marks, start, end, buf),
    }
}

// What the buffer holds afterwards: of a long one the first byte and the last.
fn shown(buf: &[u8]) {
    let n = buf.len();
    if n < 9 {
        cases::bytes(buf);
    } else {
        cases::bytes(le::part(buf, 0, 1));
        cases::bytes(le::part(buf, n - 1, 1));
    }
}
