// Builds objects, at the limits and one above them, and surveys them; also to measure what a survey costs. Standard input has nine numbers
// an object, each ended by one space or newline: sections; symbol records; how many of these are defined; relocations; extern names; how many
// of these are long; a long name's bytes; the class of the undefined symbols; how often the object is surveyed. Each survey writes a line of
// its counts.
#![tactic(auto)]

mod input;
mod line;
mod long_names;
mod records;
mod shape;
mod symbol_rows;

use shape::Plan;

// Room for the longest file that survey accepts, and for the numbers of 56 objects.
fn main() {
    let mut buffer = [0u8; 4194304];
    let mut numbers = [0u32; 512];
    let n = input::read_numbers(&mut numbers);
    objects(&numbers, n / shape::NUMBERS, &mut buffer);
}

fn objects(numbers: &[u32], n: u16, buffer: &mut [u8]) {
    for i in 0..n {
        let p = shape::plan_at(numbers, i);
        build(buffer, p);
        surveys(le::part(buffer, 0, shape::size(p)), p.times);
    }
}

fn build(buffer: &mut [u8], p: Plan) {
    le::zero(buffer, 0, shape::size(p));
    records::put_header(buffer, p);
    records::put_sections(buffer, p);
    symbol_rows::put_symbols(buffer, p);
    long_names::put_strings(buffer, p);
    records::put_relocations(buffer, p);
}

fn surveys(f: &[u8], times: u16) {
    for _ in 0..times {
        line::answer(survey::survey(f));
    }
}
