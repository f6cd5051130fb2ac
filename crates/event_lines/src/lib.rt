// Lines: where one ends in a piece of the input; and lines of three decimal numbers, read byte by byte: a line may be of any length, and
// its bytes arrive in pieces.
// Inner doors: the calls are in docs/CALLS.md.
#![tactic(auto)]

ghost use Rattle.std.specs.Prelude.{◌≡◌, ◌≤◌, ◌==◌, position};
ghost use Rattle.event_lines.specs.Steps.{start, spoilt, with_digit, next_number, read_on, fed, line_end, line_numbers};
ghost use Rattle.event_lines.specs.Begun.{is_begun};
ghost use Rattle.event_lines.specs.Ends.{end_from};

// How far an event line has been read.
#[derive(Debug, Clone, Copy, PartialEq, Eq, Default)]
pub struct Reading {
    // the number under way, from 0; above 2 the line is malformed, whatever follows
    // Stays: a malformed line is a place, as `Steps.spoilt` and `line_end` have it, which answer for readings not made here too
    pub place: u8,
    // its digits so far, and what they make
    pub digits: u8,
    pub value: u32,
    // the numbers before it
    pub first: u32,
    pub second: u32,
}

// What a line of three numbers says.
#[derive(Debug, Clone, Copy, PartialEq, Eq)]
pub struct Event {
    pub kind: u32,
    pub a: u32,
    pub b: u32,
}

// A line of which no byte is read.
// Promise: equals `Steps.start`: no byte of the line is read yet.
pub fn begin() -> Reading
    ensures { result ≡ start }
{
    Reading::default()
}

fn malformed() -> Reading
    ensures { result ≡ spoilt }
{
    Reading {
        place: 3,
        ..begin()
    }
}

#[tactic(auto, unfolding(crate::specs::Steps::with_digit))]
fn with_digit(r: Reading, digit: u8) -> Reading
    requires { digit ≤ 9 }
    ensures { result ≡ with_digit r digit }
{
    // fewer than nine digits make no such number; a reading that was not made here may hold one
    if 9 <= r.digits || 100_000_000 <= r.value {
        return malformed();
    }
    Reading {
        digits: r.digits + 1,
        value: r.value * 10 + u32::from(digit),
        ..r
    }
}

#[tactic(auto, unfolding(crate::specs::Steps::next_number))]
fn next_number(r: Reading) -> Reading
    ensures { result ≡ next_number r }
{
    if r.digits == 0 {
        return malformed();
    }
    match r.place {
        0 => Reading {
            place: 1,
            first: r.value,
            ..begin()
        },
        1 => Reading {
            place: 2,
            first: r.first,
            second: r.value,
            ..begin()
        },
        _ => malformed(),
    }
}

// One byte more of the line.
#[tactic(auto, unfolding(crate::specs::Steps::read_on))]
fn read_on(r: Reading, byte: u8) -> Reading
    ensures { result ≡ read_on r byte }
{
    match byte {
        b' ' => next_number(r),
        b'0'..=b'9' => with_digit(r, byte - b'0'),
        _ => malformed(),
    }
}

// Bytes more of the line, whose newline is not one of them.
// Promise: equals `Steps.fed`: these bytes one after the other. Of the bytes of a line from its beginning, the three give exactly
// `Events.event_line` of the whole line (`event_lines.Events.read_line_lem`).
pub fn read_bytes(r: Reading, bytes: &[u8]) -> Reading
    ensures { result ≡ fed r bytes.now }
{
    bytes
        .iter()
        .fold(r, |reading, byte| read_on(reading, *byte))
}

// What a line says that ends here.
// Promise: its numbers equal `Steps.line_end`: three decimal numbers of 1 to 9 digits with one space between, or malformed.
#[tactic(auto, unfolding(crate::specs::Steps::line_end))]
pub fn line_end(r: Reading) -> Option<Event>
    ensures { line_numbers result ≡ line_end r }
{
    if r.digits == 0 || r.place != 2 {
        return None;
    }
    Some(Event {
        kind: r.first,
        a: r.second,
        b: r.value,
    })
}

// Whether a byte of the line under way is read: "the last newline may be missing".
// Promise: a byte of the line of numbers under way is read.
pub fn is_begun(r: Reading) -> bool
    ensures { result ≡ is_begun r }
{
    r.place != 0 || r.digits != 0
}

// ---- a piece of the input

// The place of the first newline.
fn newline_in(bytes: &[u8]) -> Option<usize>
    ensures { result ≡ position (λ b. b == 10) bytes.now }
{
    bytes.iter().position(|byte| *byte == b'\n')
}

// The end of the line that begins or goes on at a place.
// Promise: the place of the first newline from there on; none where there is none.
pub fn find_end(bytes: &[u8], from: usize) -> Option<usize>
    ensures { result ≡ end_from bytes.now from }
{
    let rest = bytes.get(from..)?;
    let place = newline_in(rest)?;
    Some(from + place)
}
