// The spaces over lent pages, at their edges. A line of standard input is a question: word 0 its subject, word 1 the function, then numbers. Lines
// of `lent` and `image` prepare what is lent; a heading behind `--` and an empty line ask nothing. Each line is written again and behind it the
// answer, so the output is the input with its answers. What is known of where those come from is docs/DECISIONS.md 58.
#![tactic(auto)]

mod questions;

use arch::{RVA, VA};
use aspace::{Absolute, Sliced};
use questions::Question;

// How many bytes of image and marks are lent.
#[derive(Clone, Copy)]
struct Lent {
    image: u64,
    marks: u64,
}

fn main() {
    let mut text = io::large_buffer();
    let n = io::read_full(0, &mut text);
    let mut image = [0u8; 12288];
    let mut marks = [0u8; 8];
    each(&text[..n], &mut image, &mut marks);
}

fn each(text: &[u8], image: &mut [u8], marks: &mut [u8]) {
    let mut lent = Lent { image: 0, marks: 0 };
    for with_end in text.split_inclusive(|b| *b == b'\n') {
        let asked = with_end.strip_suffix(b"\n").unwrap_or(with_end);
        lent = prepared(asked, lent, marks);
        line(asked, lent, image, le::part(marks, 0, lent.marks as usize));
        cases::end();
    }
}

// `lent IMAGE MARKS WORD`: how many bytes of each, and the first word of the marks.
fn prepared(line: &[u8], lent: Lent, marks: &mut [u8]) -> Lent {
    cases::text(line);
    match cases::place(cases::word(line, 0), b"lent ") {
        0 => {
            le::put_u64(marks, 0, cases::number_at(line, 3));
            Lent {
                image: cases::number_at(line, 1),
                marks: cases::number_at(line, 2),
            }
        }
        _ => lent,
    }
}

// A place is an offset, the base and an address, or a slice's start and an offset. A slice is only read.
fn line(line: &[u8], lent: Lent, image: &mut [u8], marks: &[u8]) {
    let size = cases::least(lent.image, image.len());
    let subject = cases::place(cases::word(line, 0), b"relative absolute sliced image ");
    match subject {
        0..=2 => {
            let question = Question::of(line, subject);
            let first = cases::number_at(line, question.at);
            let second = cases::number_at(line, question.at + 1);
            let image = &mut image[..size];
            match subject {
                0 => question.ask(RVA(first), image, marks),
                1 => question.ask(
                    Absolute {
                        base: VA(first),
                        address: VA(second),
                    },
                    image,
                    marks,
                ),
                _ => question.read(
                    Sliced {
                        start: RVA(first),
                        offset: RVA(second),
                    },
                    image,
                    marks,
                ),
            }
        }
        3 => cases::buffer(line, image),
        _ => {}
    }
}
