// Numbers, permissions and words put into a lent buffer.
#![tactic(auto)]

ghost use Rattle.std.specs.Prelude.{◌≡◌, [], ◌∷◌, ◌++◌, ◌%◌, ◌≤◌};
ghost use Rattle.le.specs.Le.{part};
ghost use Rattle.text.specs.Text.{glyph, number, decimal_text, hex_text, signed_text, letter_or as mark_of, permissions_text, word, Wrote};

// A lent buffer, and the place in it where the next byte goes. What has no room is left out. Names are bytes of any kind, so it is
// no `fmt::Write`, which takes UTF-8.
#[derive(Drop)]
pub struct Writer<'a> {
    pub out: &'a mut [u8],
    pub at: usize,
}

impl Writer<'_> {
    // What is put from the buffer's front to the place.
    pub fn written(&self) -> &[u8]
        ensures { result.now ≡ part self.now.out.now 0 self.now.at }
    {
        le::part(self.out, 0, self.at)
    }

    // One byte.
    #[tactic(auto, using(crate::proofs::Laws::byte_ways))]
    pub fn byte(&mut self, b: u8)
        ensures { Wrote self.old (b ∷ []) self.new }
    {
        if self.at < self.out.len() {
            self.out[self.at] = b;
            self.at += 1;
        }
    }

    // A run of bytes.
    pub fn text(&mut self, s: &[u8])
        ensures { Wrote self.old s.now self.new }
    {
        let n = le::room(self.out.len(), self.at, s.len());
        le::copy(self.out, self.at, s);
        self.at += n;
    }

    // The digits before the last, and the last.
    fn number(&mut self, n: u64, base: u64)
        requires { (2 ≤ base) × (base ≤ 16) }
        ensures { Wrote self.old (number base n) self.new }
    {
        let last = digit(n, base);
        if n < base {
            self.byte(last);
        } else {
            self.number(n / base, base);
            self.byte(last);
        }
    }

    // A number in decimal.
    pub fn decimal(&mut self, n: u64)
        ensures { Wrote self.old (decimal_text n) self.new }
    {
        self.number(n, 10);
    }

    // A number in hexadecimal.
    pub fn hex(&mut self, n: u64)
        ensures { Wrote self.old (hex_text n) self.new }
    {
        self.number(n, 16);
    }

    // A number in two's complement.
    pub fn signed(&mut self, v: u64)
        ensures { Wrote self.old (signed_text v) self.new }
    {
        if v < 0x8000000000000000 {
            self.decimal(v);
        } else {
            self.byte(b'-');
            self.decimal(v.wrapping_neg());
        }
    }

    fn permissions(&mut self, p: u64)
        ensures { Wrote self.old (permissions_text p) self.new }
    {
        self.byte(mark(p % 2, b'R'));
        self.byte(mark(p / 2 % 2, b'W'));
        self.byte(mark(p / 4 % 2, b'X'));
    }

    // With a space behind them.
    pub fn hex_word(&mut self, n: u64)
        ensures { Wrote self.old (word (hex_text n)) self.new }
    {
        self.hex(n);
        self.byte(b' ');
    }

    // In decimal.
    pub fn decimal_word(&mut self, n: u64)
        ensures { Wrote self.old (word (decimal_text n)) self.new }
    {
        self.decimal(n);
        self.byte(b' ');
    }

    // Permissions.
    pub fn permissions_word(&mut self, p: u64)
        ensures { Wrote self.old (word (permissions_text p)) self.new }
    {
        self.permissions(p);
        self.byte(b' ');
    }

    // A line's first word, which has its own space, and its first number.
    pub fn hex_head(&mut self, s: &[u8], n: u64)
        ensures { Wrote self.old (s.now ++ word (hex_text n)) self.new }
    {
        self.text(s);
        self.hex_word(n);
    }

    // The same in decimal.
    pub fn decimal_head(&mut self, s: &[u8], n: u64)
        ensures { Wrote self.old (s.now ++ word (decimal_text n)) self.new }
    {
        self.text(s);
        self.decimal_word(n);
    }
}

// The last digit.
#[tactic(auto, unfolding(crate::specs::Text::glyph, util::specs::Pick::pick))]
fn digit(n: u64, base: u64) -> u8
    requires { (2 ≤ base) × (base ≤ 16) }
    ensures { result ≡ glyph (n % base) }
{
    let d = (n % base) as u8;
    if d < 10 { b'0' + d } else { b'a' - 10 + d }
}

#[tactic(auto, unfolding(crate::specs::Text::letter_or, util::specs::Pick::pick))]
fn mark(bit: u64, letter: u8) -> u8
    ensures { result ≡ mark_of bit letter }
{
    if bit == 0 { b'-' } else { letter }
}
