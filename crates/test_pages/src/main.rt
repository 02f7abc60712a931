// Pages in lent storage, and patch over them, at their edges. A line of standard input is a question: word 0 its subject, word 1 the function, then
// numbers. Lines of `lent`, `image`, `marks`, `given` and `fix` prepare what is lent; a heading behind `--` and an empty line ask nothing. Each line
// is written again and behind it the answer, so the output is the input with its answers. What is known of where
// those come from is docs/DECISIONS.md 58.
#![tactic(auto)]

mod pages;
mod patches;

// How many bytes of image and marks are lent.
#[derive(Clone, Copy)]
struct Lent {
    image: u64,
    marks: u64,
}

fn main() {
    let mut text = io::large_buffer();
    let n = io::read_full(0, &mut text);
    let mut image = [0u8; 24576];
    let mut marks = [0u8; 16];
    let mut given = [0u8; 8193];
    each(&text[..n], &mut image, &mut marks, &mut given);
}

fn each(text: &[u8], image: &mut [u8], marks: &mut [u8], given: &mut [u8]) {
    let mut lent = Lent { image: 0, marks: 0 };
    for with_end in text.split_inclusive(|b| *b == b'\n') {
        let asked = with_end.strip_suffix(b"\n").unwrap_or(with_end);
        lent = prepared(asked, lent, given);
        line(asked, lent, image, marks, given);
        cases::end();
    }
}

// `lent IMAGE MARKS`; `given` is the buffer of the bytes that a write or a patch is given, and `fix K PLACE BITS VALUE` a record of a fix list there.
fn prepared(line: &[u8], lent: Lent, given: &mut [u8]) -> Lent {
    cases::text(line);
    match cases::place(cases::word(line, 0), b"lent given fix ") {
        0 => Lent {
            image: cases::number_at(line, 1),
            marks: cases::number_at(line, 2),
        },
        1 => {
            cases::buffer(line, given);
            lent
        }
        2 => {
            patches::fix(line, given);
            lent
        }
        _ => lent,
    }
}

fn line(line: &[u8], lent: Lent, image: &mut [u8], marks: &mut [u8], given: &[u8]) {
    let size = cases::least(lent.image, image.len());
    let marks_size = cases::least(lent.marks, marks.len());
    match cases::place(cases::word(line, 0), b"pagemap patch image marks ") {
        0 => pages::pagemap(line, &mut image[..size], &mut marks[..marks_size], given),
        1 => patches::patch(
            line,
            &mut image[..size],
            le::part(marks, 0, marks_size),
            given,
        ),
        2 => cases::buffer(line, image),
        3 => cases::buffer(line, marks),
        _ => {}
    }
}
