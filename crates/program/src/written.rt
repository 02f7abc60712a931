// How many lines are written. Only `say` adds to it, and nothing else of the program writes.
ghost use Rattle.std.specs.Prelude.{◌≡◌, ◌+◌};
ghost use Rattle.program.specs.Holding.{Said};

// Its field is private: a count comes from `none` and `say` alone.
#[derive(Clone, Copy)]
pub struct Written {
    lines: u32,
}

pub(crate) fn none() -> Written
    ensures { result.lines ≡ 0 }
{
    Written { lines: 0 }
}

// How many lines were written.
pub fn count(w: Written) -> u32
    ensures { result ≡ w.lines }
{
    w.lines
}

// The file's next line.
pub(crate) fn say(f: &[u8], w: Written, line: &[u8]) -> Written
    requires { Said f.now w.lines line.now }
    ensures { result.lines ≡ w.lines + 1 }
{
    io::write_all(1, line);
    Written { lines: w.lines + 1 }
}
