// Text into lent output: a line under way is the output and the place behind what was put of it. Each call puts its text there and moves
// the place behind it. Where the text does not fit, nothing is touched and the place is one beyond the output's end. Nothing fits there, so
// a chain of calls needs one test, at its end.
// Inner doors: the calls are in docs/CALLS.md.
#![tactic(auto)]

ghost use Rattle.std.specs.Prelude.{◌≡◌, ◌+◌, ◌<◌, leb, length};
ghost use Rattle.text.specs.Text.{digits, hex_digit, hex_pair, put_at, place_after};
ghost use Rattle.text.specs.Parts.{field_text, hex_text};
ghost use Rattle.text.specs.Line.{Puts};

// A line under way: the output, and the place behind what was put of it.
#[derive(Drop)]
pub struct Line<'a> {
    pub out: &'a mut [u8],
    pub at: usize,
}

impl Line<'_> {
    // A word as it stands.
    // Promise: the word at that place, all else as it was, and the place behind it; a place past the end where it does not fit.
    #[tactic(auto, using(crate::proofs::Puts::puts))]
    pub fn word(&mut self, word: &[u8])
        ensures { Puts word.now self.old self.new }
    {
        if !self.fits(word.len()) {
            return self.leave();
        }
        let end = self.at + word.len();
        self.out[self.at..end].copy_from_slice(word);
        self.at = end;
    }

    // A number in decimal.
    // Promise: the number's decimal digits at that place, all else as it was, and the place behind it; a place past the end where they
    // do not fit. They read back to it (`text.Digits.reads_back`).
    #[tactic(auto, using(crate::proofs::Puts::puts, crate::proofs::Digits::digits_some))]
    pub fn number(&mut self, n: u64)
        ensures { Puts (digits n) self.old self.new }
    {
        let at = self.at;
        // most numbers that are put have one digit
        if n < 10 {
            if !self.fits(1) {
                return self.leave();
            }
            self.out[at] = 48 + n as u8;
            self.at = at + 1;
            return;
        }
        let count = digit_count(n);
        if !self.fits(count) {
            return self.leave();
        }
        // straight to their places: the last digit is known first
        // Stays: tried `for place in out[at..at + count].iter_mut().rev()`; behind an adapter of `iter_mut` the proof knows no
        // element
        let mut m = n;
        let mut i = at + count - 1;
        while 10 <= m {
            self.out[i] = 48 + (m % 10) as u8;
            m /= 10;
            i -= 1;
        }
        self.out[at] = 48 + m as u8;
        self.at = at + count;
    }

    // A byte as two hexadecimal digits, upper case.
    fn hex(&mut self, byte: u8)
        ensures { Puts (hex_pair byte) self.old self.new }
    {
        self.word(&[hex_digit(byte / 16), hex_digit(byte % 16)])
    }

    // Bytes in hexadecimal, two digits each, upper case.
    // Promise: two hexadecimal digits for each byte at that place, all else as it was, and the place behind them; a place past the end
    // where they do not all fit.
    #[tactic(auto, using(crate::proofs::Puts::puts, crate::proofs::Parts::text_length))]
    pub fn bytes(&mut self, bytes: &[u8])
        ensures { Puts (hex_text bytes.now) self.old self.new }
    {
        // all the digits or none
        if self.out.len() < self.at || (self.out.len() - self.at) / 2 < bytes.len() {
            return self.leave();
        }
        for byte in bytes {
            self.hex(*byte);
        }
    }

    // A number and a space.
    // Promise: the number's decimal digits and a space at that place, all else as it was, and the place behind them; a place past the
    // end where they do not fit.
    pub fn field(&mut self, n: u16)
        ensures { Puts (field_text n) self.old self.new }
    {
        // no 16-bit number has more than five digits; spelled here first, so that it is put whole or not at all
        let mut room = [0u8; 6];
        let mut spelled = Line {
            out: &mut room,
            at: 0,
        };
        spelled.number(n as u64);
        spelled.word(b" ");
        let end = spelled.at;
        self.word(&room[..end])
    }

    fn fits(&self, n: usize) -> bool
        ensures { result ≡ leb (self.now.at + n) (length self.now.out.now) }
    {
        self.at <= self.out.len() && n <= self.out.len() - self.at
    }

    // Nothing fits from here on.
    fn leave(&mut self)
        ensures same { self.new.out.ghost_name ≡ self.old.out.ghost_name }
        ensures place { self.new.at ≡ length self.old.out.now + 1 }
        ensures output { self.new.out.now ≡ self.old.out.now }
    {
        self.at = self.out.len() + 1;
    }
}

fn hex_digit(n: u8) -> u8
    requires { n < 16 }
    ensures { result ≡ hex_digit n }
{
    if n < 10 { 48 + n } else { 55 + n }
}

// How many digits a number has.
fn digit_count(n: u64) -> usize
    ensures { result ≡ length (digits n) }
{
    let mut top: u64 = 1;
    for count in 1..20 {
        top = top * 10;
        if n < top {
            return count;
        }
    }
    // no 64-bit number has more digits
    20
}

// The number for a caller that holds the output and the place apart, as the one that puts three for each event. To do
// (docs/DESIGN-PASS.md, 5): that one by a `Line` too.
// Promise: the number's decimal digits at that place, all else as it was, and the place behind it; a place past the end where they do not
// fit. They read back to it (`text.Digits.reads_back`).
pub fn put_number(out: &mut [u8], at: usize, n: u64) -> usize
    ensures place { result ≡ place_after (digits n) at out.old }
    ensures output { out.new ≡ put_at (digits n) at out.old }
{
    let mut line = Line { out, at };
    line.number(n);
    line.at
}
