// A question to a place, the same in each space.
ghost use Rattle.std.specs.Prelude.{◌≤◌};

use arch::Arch;
use aspace::Place;
use refusal::Refusal;
use strings::Text;

// A line, its function's number, and the words where the place stands and where the numbers behind it begin. A function up to `read_ascii` has a
// number before the place.
#[derive(Clone, Copy)]
pub(crate) struct Question<'a> {
    line: &'a [u8],
    function: u8,
    pub(crate) at: u8,
    behind: u8,
}

impl<'a> Question<'a> {
    // A place of the relative space, which is subject 0, is one word, any other two.
    pub(crate) fn of(line: &'a [u8], subject: u8) -> Question<'a>
        ensures { result.at ≤ 3 }
    {
        cases::text(b" =");
        let function = cases::place(
            cases::word(line, 1),
            b"write write_u16 write_u32 write_u64 write_i32 write_i64 read_into read_bytes read_ascii read_u8 read_u16 read_u32 read_u64 read_pointer_x32 read_pointer_x64 ",
        );
        let at = if function < 9 { 3 } else { 2 };
        let behind = if subject == 0 { at + 1 } else { at + 2 };
        Question {
            line,
            function,
            at,
            behind,
        }
    }

    // Behind what a write answers stands whether the image was kept.
    pub(crate) fn ask<P: Place>(self, at: P, image: &mut [u8], marks: &[u8]) {
        if self.function < 6 {
            let before = cases::crc32(image);
            cases::answer(self.write(at, image, marks).map_err(|r| r.number()));
            cases::kept(before, image);
        } else {
            self.read(at, image, marks);
        }
    }

    // `write N AT BYTES`: these bytes, or 0x5A for each that is not there; with a base, 0x5A always. `write_u16 VALUE AT` and the like; a signed value in two's complement.
    fn write<P: Place>(self, at: P, image: &mut [u8], marks: &[u8]) -> Result<(), Refusal> {
        let n = cases::number_at(self.line, 2);
        match self.function {
            0 => {
                let mut bytes = [0x5Au8; 4097];
                if self.behind == 4 {
                    cases::bytes_at(self.line, self.behind, &mut bytes);
                }
                write::write(image, marks, at, le::part(&bytes, 0, n as usize))
            }
            1 => write::write_number::<u16, _>(image, marks, at, n),
            2 | 4 => write::write_number::<u32, _>(image, marks, at, n),
            _ => write::write_number::<u64, _>(image, marks, at, n),
        }
    }

    // `read_into ROOM AT`, `read_bytes ROOM AT N`, `read_ascii MINIMUM AT`, `read_u8 AT` and the like; a word that is none of them is refused by 0.
    pub(crate) fn read<P: Place>(self, at: P, image: &[u8], marks: &[u8]) {
        match self.function {
            6 | 7 => self.read_buffer(at, image, marks),
            8 => text(
                image,
                strings::read_ascii(image, marks, at, cases::number_at(self.line, 2)),
            ),
            9..=14 => cases::number(self.read_number(at, image, marks).map_err(|r| r.number())),
            _ => cases::refused(0),
        }
    }

    // Into a buffer of ROOM bytes, each 0xEE before; and what it holds afterwards.
    fn read_buffer<P: Place>(self, at: P, image: &[u8], marks: &[u8]) {
        let mut bytes = [0xEEu8; 4];
        let size = cases::least(cases::number_at(self.line, 2), bytes.len());
        let buf = &mut bytes[..size];
        let answer = if self.function == 6 {
            aspace::read_into(image, marks, at, buf)
        } else {
            let n = cases::number_at(self.line, self.behind) as usize;
            aspace::read_bytes(image, marks, at, n, buf)
        };
        cases::answer(answer.map_err(|r| r.number()));
        cases::bytes(buf);
    }

    fn read_number<P: Place>(self, at: P, image: &[u8], marks: &[u8]) -> Result<u64, Refusal> {
        match self.function {
            9 => aspace::read_number::<u8, _>(image, marks, at),
            10 => aspace::read_number::<u16, _>(image, marks, at),
            11 => aspace::read_number::<u32, _>(image, marks, at),
            12 => aspace::read_number::<u64, _>(image, marks, at),
            13 => aspace::read_pointer(image, marks, Arch::X32, at),
            _ => aspace::read_pointer(image, marks, Arch::X64, at),
        }
    }
}

// Where the string lies, how long it is, and its bytes.
fn text(image: &[u8], answer: Result<Option<Text>, Refusal>) {
    match answer {
        Ok(Some(found)) => {
            cases::hex(found.start.0);
            cases::decimal(found.length);
        }
        Ok(None) => cases::text(b" too short"),
        Err(refusal) => cases::refused(refusal.number()),
    }
    cases::bytes(strings::ascii_text(image, answer));
}
