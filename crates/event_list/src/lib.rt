// The lines of a piece of the input as a list of events, three numbers each, for the calls over many events. Nothing here reads or writes.
// An inner door: the calls are in docs/CALLS.md.
#![tactic(auto)]

ghost use Rattle.std.specs.Prelude.{◌≡◌, true, [], ◌∷◌, ◌+◌, ◌≤◌, length, IfSome, IfOk};
ghost use Rattle.event_lines.specs.Steps.{line_end};
ghost use Rattle.fields.specs.Output.{writing_output};
ghost use Rattle.console.specs.Outputs.{Counts, Put};
ghost use Rattle.event_list.specs.Lines.{three_of, asked_by, listing, listed_by};
ghost use Rattle.event_list.specs.Wholes.{Numbered, WholeLine};

use event_lines::{Event, Reading};

// The event of a line. A malformed one is none: there is no kind 0, so that it is refused as 6 and changes nothing.
fn asked_of(r: Reading) -> Event
    ensures { result ≡ asked_by (line_end r) }
{
    event_lines::line_end(r).unwrap_or(Event {
        kind: 0,
        a: 0,
        b: 0,
    })
}

// An event's three numbers; the place behind them.
fn put_event(event: Event, at: usize, list: &mut [u32]) -> usize
    requires { at + 3 ≤ length list.old }
    ensures { Put (event.kind ∷ event.a ∷ event.b ∷ []) 3 at list.old result list.new }
{
    let end = at + 3;
    list[at..end].copy_from_slice(&[event.kind, event.a, event.b]);
    end
}

// A line's three numbers.
fn put_line(r: Reading, at: usize, list: &mut [u32]) -> usize
    requires { at + 3 ≤ length list.old }
    ensures { Put (three_of (line_end r)) 3 at list.old result list.new }
{
    put_event(asked_of(r), at, list)
}

// ---- a line that is whole and good in these bytes, read at once: most are

// A number has no more digits.
const MOST: usize = 9;

// A number, and the place behind the byte that closes it.
#[derive(Debug, Clone, Copy)]
struct Number {
    value: u32,
    next: usize,
}

// One to nine digits with a certain byte behind them.
// Stays: the bytes and a place in them, and no rest of them: the laws that docs/PROMISES.md names
// (`Wholes.digits_more`, `whole`) say places
fn number_at(bytes: &[u8], from: usize, close: u8) -> Option<Number>
    requires { from ≤ length bytes.now }
    ensures { IfSome result (λ n. Numbered bytes.now from close n.value n.next) }
{
    let rest = &bytes[from..];
    let digits = &rest[..rest.len().min(MOST)];
    let mut value: u32 = 0;
    for (i, byte) in digits.iter().enumerate() {
        if !byte.is_ascii_digit() {
            let next = from + i + 1;
            return (0 < i && *byte == close).then_some(Number { value, next });
        }
        value = value * 10 + u32::from(*byte - b'0');
    }
    // nine digits, or the bytes end
    let byte = *rest.get(MOST)?;
    let next = from + MOST + 1;
    (byte == close).then_some(Number { value, next })
}

// A line's event, and the place behind the line's newline.
#[derive(Debug, Clone, Copy)]
struct Line {
    event: Event,
    next: usize,
}

// The line that begins at a place: three numbers with one space between and a newline behind them. Any other is left to be read byte by
// byte, and so is a line of which a byte came before.
fn whole_line(fresh: bool, bytes: &[u8], from: usize) -> Option<Line>
    requires { from ≤ length bytes.now }
    ensures { IfSome result (λ line. WholeLine fresh bytes.now from line.event.kind line.event.a line.event.b line.next) }
{
    if !fresh {
        return None;
    }
    let kind = number_at(bytes, from, b' ')?;
    let a = number_at(bytes, kind.next, b' ')?;
    let b = number_at(bytes, a.next, b'\n')?;
    let event = Event {
        kind: kind.value,
        a: a.value,
        b: b.value,
    };
    Some(Line {
        event,
        next: b.next,
    })
}

// How many numbers stand at the list's front, and how far the line behind them is read.
// Stays: numbers, three an event, and no list of `Event`: `Lines.listed_by` and the call that takes the list, `backlog_run`'s, count so
#[derive(Debug, Clone, Copy, PartialEq, Eq)]
pub struct Listed {
    pub size: usize,
    pub reading: Reading,
}

// The list has fewer than three places for each byte.
#[derive(Debug, Clone, Copy, PartialEq, Eq)]
pub struct ListShort;

impl ListShort {
    // Promise: the number that says no: 10.
    pub fn number(self) -> u8
        ensures { result ≡ 10 }
    {
        10 // room is short
    }
}

// The lines that end in these bytes, one after the other; the line under way before them goes on.
// Promise: equals `Lines.listed_by`: three numbers for each line that ends in these bytes, 0 0 0 for a malformed one, at the front of the
// list, and the reading of the line under way behind them; 10 where the list has fewer than three places for each byte.
pub fn list_lines(r: Reading, bytes: &[u8], list: &mut [u32]) -> Result<Listed, ListShort>
    ensures answer { result ≡ listed_by (listing r bytes.now list.old) r bytes.now }
    ensures list { list.new ≡ writing_output (listing r bytes.now list.old) list.old }
    ensures room { IfOk result (λ listed. Counts listed.size list.new) }
{
    // no line is without a byte of input
    if list.len() / 3 < bytes.len() {
        return Err(ListShort);
    }
    let mut reading = r;
    // whether no byte of the line is read yet; the line under way goes byte by byte
    // Stays: the two as one Option<Reading>, none where no byte is read, takes 52 ns a line in place of 45 where most are malformed
    let mut fresh = false;
    let mut at: usize = 0;
    let mut from: usize = 0;
    loop {
        if let Some(whole) = whole_line(fresh, bytes, from) {
            at = put_event(whole.event, at, list);
            from = whole.next;
            continue;
        }
        let Some(stop) = event_lines::find_end(bytes, from) else {
            let line = event_lines::read_bytes(reading, &bytes[from..]);
            return Ok(Listed {
                size: at,
                reading: line,
            });
        };
        let line = event_lines::read_bytes(reading, &bytes[from..stop]);
        at = put_line(line, at, list);
        reading = event_lines::begin();
        fresh = true;
        from = stop + 1;
    }
}
