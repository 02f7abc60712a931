// Questions to `patch`.
use arch::VA;
use limits::{FIXUP_BITS, FIXUP_BYTES, FIXUP_VALUE, WORD};
use patch::Progress;
use refusal::Refusal;

pub(crate) fn fix(line: &[u8], list: &mut [u8]) {
    let at = (cases::number_at(line, 1) % 3) as usize * FIXUP_BYTES;
    le::put_u64(list, at, cases::number_at(line, 2));
    le::put_u64(
        list,
        at + WORD * FIXUP_BITS as usize,
        cases::number_at(line, 3),
    );
    le::put_u64(
        list,
        at + WORD * FIXUP_VALUE as usize,
        cases::number_at(line, 4),
    );
}

// `patch LIST BASE NUMBER POSITION`: so many bytes of those given are the list. Behind the answer stands whether the image was kept.
pub(crate) fn patch(line: &[u8], image: &mut [u8], marks: &[u8], given: &[u8]) {
    let before = cases::crc32(image);
    told(patch::patch(
        VA(cases::number_at(line, 3)),
        image,
        marks,
        le::part(given, 0, cases::number_at(line, 2) as usize),
        cases::number_at(line, 4),
        cases::number_at(line, 5),
    ));
    cases::kept(before, image);
}

// The position behind the portion, and whether it is the list's end.
fn told(answer: Result<Progress, Refusal>) {
    cases::text(b" =");
    match answer {
        Ok(p) => {
            cases::decimal(p.position);
            cases::yes(p.done);
        }
        Err(r) => cases::refused(r.number()),
    }
}
