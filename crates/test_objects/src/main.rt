// Document 01's operations on the objects of standard input. A case is a line `case LABEL BASE LENGTH`, the object's LENGTH bytes, a newline, and a line
// for each action: the object is loaded at BASE, and the actions are carried out on that load; `at BASE` loads it again. Each line is written with the
// answer behind it, except `lines` and `tables`, for which stand what the program prints and the lines of load's tables.
// The answers are a reference model's, the original's (`original-`) or worked out by hand from document 01 (`empty-`); `make` puts the two files together,
// and docs/DECISIONS.md 58 says where they come from.
#![tactic(auto)]

mod act;
mod lend;
mod say;

ghost use Rattle.std.specs.Prelude.{◌≤◌};

const CASE: u8 = 0;

const AT: u8 = 1;

const LINES: u8 = 2;

const SURVEY: u8 = 3;

// More than the input has.
fn main() {
    let mut text = [0u8; 4194304];
    let n = io::read_full(0, &mut text);
    each(le::part(&text, 0, n));
}

// The lines that load, or need no load; those behind a load are `act`'s.
fn each(text: &[u8]) {
    let mut object: usize = 0;
    let mut size: usize = 0;
    let mut at: usize = 0;
    while at < text.len() {
        let line = cases::line(text, at);
        let next = at + line.len() + 1;
        let k = cases::place(cases::word(line, 0), b"case at lines survey ");
        if k == CASE {
            object = next;
            size = cases::number_at(line, 3) as usize;
        }
        at = behind(k, next, size);
        one(k, line, le::part(text, object, size), text, at);
    }
}

// Behind a case's line stand its object and a newline.
fn behind(k: u8, next: usize, size: usize) -> usize
    ensures { next ≤ result }
{
    if k == CASE && size < usize::MAX - next {
        next + size + 1
    } else {
        next
    }
}

fn one(k: u8, line: &[u8], f: &[u8], text: &[u8], next: usize) {
    match k {
        CASE => lend::at(line, cases::number_at(line, 2), f, text, next),
        AT => lend::at(line, cases::number_at(line, 1), f, text, next),
        LINES => {
            let _ = program::top_up(f);
        }
        SURVEY => say::counted_by(line, survey::survey(f)),
        _ => {}
    }
}
