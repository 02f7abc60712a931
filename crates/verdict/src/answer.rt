// Which of its three outputs the program prints.
use refusal::Refusal;
use survey::Counts;

// Too large for the program, refused, or the lines of a load with these counts.
#[derive(Clone, Copy)]
pub enum Verdict {
    TooLarge,
    Refused(Refusal),
    Lines(Counts),
}
