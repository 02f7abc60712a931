// Strings in the image, from aspace.rs, at any place.
#![tactic(auto)]

ghost use Rattle.std.specs.Prelude.{◌≡◌};
ghost use Rattle.strings.specs.Ascii.{is_text, text_length, ascii_there, text_of};

use arch::RVA;
use aspace::Place;
use refusal::Refusal;

// Where a string starts and how long it is.
#[derive(Clone, Copy)]
pub struct Text {
    pub start: RVA,
    pub length: u64,
}

// A byte of a string: a visible one or a space; a tab, a line feed or a carriage return.
#[tactic(auto, unfolding(crate::specs::Ascii::is_text))]
fn is_text(b: u8) -> bool
    ensures { result ≡ is_text b }
{
    matches!(b, 0x20..=0x7E | b'\t' | b'\n' | b'\r')
}

// How many mapped text bytes stand from `start` on.
fn text_length(image: &[u8], marks: &[u8], start: RVA) -> u64
    ensures { result ≡ text_length image.now marks.now start.0 }
{
    let at = start.0 as usize;
    for i in at..image.len() {
        if !(pagemap::probe(image, marks, RVA(i as u64)) && is_text(image[i])) {
            return (i - at) as u64;
        }
    }
    image.len().saturating_sub(at) as u64
}

// The string there: the mapped text bytes up to the first that is none; nothing where they are fewer than `minimum_length`. A place that
// is not reached is 15.
#[tactic(auto, using(crate::proofs::Laws::asciis))]
pub fn read_ascii<P: Place>(
    image: &[u8],
    marks: &[u8],
    at: P,
    minimum_length: u64,
) -> Result<Option<Text>, Refusal>
    ensures { result ≡ ascii_there (P.reaches at 1) image.now marks.now (P.start at) minimum_length }
{
    if !pagemap::storage_ok(image.len() as u64, marks.len() as u64) {
        return Err(Refusal::Storage);
    }
    let Some(start) = at.offset(1) else {
        return Err(Refusal::NotMapped);
    };
    let length = text_length(image, marks, start);
    Ok(if length < minimum_length {
        None
    } else {
        Some(Text { start, length })
    })
}

// The bytes of the answer: that part of the image, or none.
#[tactic(auto, unfolding(crate::specs::Ascii::text_of))]
pub fn ascii_text<E: Copy>(image: &[u8], answer: Result<Option<Text>, E>) -> &[u8]
    ensures { result.now ≡ text_of image.now answer }
{
    match answer {
        Ok(Some(text)) => le::part(image, text.start.0 as usize, text.length as usize),
        Ok(None) | Err(_) => &image[..0],
    }
}
