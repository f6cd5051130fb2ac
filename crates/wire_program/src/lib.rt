// The wire program's lines, on bytes and values alone: letters read and written back, line by line. Nothing here reads or writes.
// An inner door: the calls are in docs/CALLS.md.
#![tactic(auto)]

ghost use Rattle.std.specs.Prelude.{◌≡◌, ◌≤◌, length, T, IfOk};
ghost use Rattle.console.specs.Outputs.{Counts, wrote_by};
ghost use Rattle.fields.specs.Output.{with_room, writing_output};
ghost use Rattle.text.specs.Line.{Adds};
ghost use Rattle.wire_program.specs.Passing.{said_by, spoken, written, passed_by};
ghost use Rattle.net.specs.Values.{network_of};
ghost use Rattle.sheet_rules.specs.Values.{net_holds};
ghost use Rattle.sheet.specs.Sheet.{sheet};
ghost use Rattle.console.specs.Sheets.{file_sheet, refusal_text};
ghost use Rattle.wire_program.specs.Line.{sheet_text, sheet_most};
ghost use Rattle.net.specs.Letters.{letter_holds};
ghost use Rattle.wire_program.specs.LetterLineLine.{kind_word, body_text, letter_text, read_line};

use console::Refusal;
use hex_lines::HexReading;
use net::{Body, Letter, Net};
use text::Line;

// What is printed for a line that ends here.
fn put_line(line: &mut Line, net: Net, r: HexReading)
    ensures text { Adds (spoken net (said_by r)) line.old line.new }
    ensures few { length (spoken net (said_by r)) ≤ 64 }
{
    match hex_lines::hex_end(r) {
        None => line.word(b"malformed\n"),
        Some(n) => put_read(line, net, &r.bytes[..n]),
    }
}

// After a piece of the input: 0 or the number that says no, how many bytes of output there are, and the reading that goes on from there.
// To do (docs/DESIGN-PASS.md, 1): an error in place of the number; the reading stays beside it, since a refusal hands it back
// (`Passing.passed_by`).
#[derive(Debug, Clone, Copy, PartialEq, Eq)]
pub struct Passed {
    pub answer: u8,
    pub written: usize,
    pub reading: HexReading,
}

// Reads and writes back the letters whose lines end in these bytes.
// Promise: that line for each letter whose line ends in these bytes.
pub fn run_letters(net: Net, r: HexReading, bytes: &[u8], out: &mut [u8]) -> Passed
    ensures answer { result ≡ passed_by (written net r bytes.now out.old) net r bytes.now }
    ensures output { out.new ≡ writing_output (written net r bytes.now out.old) out.old }
    ensures room { Counts result.written out.new }
{
    // no line is longer than 64 bytes, and none is without a byte of input
    if out.len() / 64 < bytes.len() {
        return Passed {
            answer: 10,
            written: 0,
            reading: r,
        };
    }
    let mut line = Line { out, at: 0 };
    let mut reading = r;
    let mut from = 0;
    while let Some(stop) = event_lines::find_end(bytes, from) {
        let read = hex_lines::read_hex_bytes(reading, &bytes[from..stop]);
        put_line(&mut line, net, read);
        reading = hex_lines::begin_hex();
        from = stop + 1;
    }
    Passed {
        answer: 0,
        written: line.at,
        reading: hex_lines::read_hex_bytes(reading, &bytes[from..]),
    }
}

// ---- The wire program's first line, on bytes and values alone: the sheet written back, or the number of a refused one.

fn put_network(line: &mut Line, net: Net)
    requires { T (net_holds net) }
    ensures { Adds (sheet_text (sheet (network_of net))) line.old line.new }
{
    // no sheet is longer: the first field, 64 links, the last field
    let mut room = [0u8; 327];
    let n = sheet::write(net, &mut room).unwrap_or(0);
    line.word(b"sheet 0 ");
    line.field(net.stations as u16);
    line.field(net.links as u16);
    line.bytes(&room[..n]);
    line.word(b"\n");
}

// `sheet 0 STATIONS LINKS HEX`, or `sheet N` for a refused one.
fn put_file(line: &mut Line, file: &[u8])
    ensures text { Adds (sheet_text (file_sheet file.now)) line.old line.new }
    ensures few { length (sheet_text (file_sheet file.now)) ≤ sheet_most }
{
    match console::open_sheet(file) {
        Ok(net) => put_network(line, net),
        Err(error) => {
            line.word(b"sheet ");
            // Stays: no call of `put_number_line`, so that an edit can end this line alone by a space (`no_newline_in_refusal`)
            line.number(error.number() as u64);
            line.word(b"\n"); // where a refused sheet's line ends
        }
    }
}

// The line of a sheet's file.
// Promise: the wire program's first line.
pub fn put_sheet(file: &[u8], out: &mut [u8]) -> Result<usize, Refusal>
    ensures answer { result ≡ wrote_by (with_room sheet_most (sheet_text (file_sheet file.now)) out.old) }
    ensures output { out.new ≡ writing_output
        (with_room sheet_most (sheet_text (file_sheet file.now)) out.old) out.old }
    ensures room { IfOk result (λ n. Counts n out.new) }
{
    if out.len() < 700 {
        return Err(Refusal(10));
    }
    let mut line = Line { out, at: 0 };
    put_file(&mut line, file);
    Ok(line.at)
}

// ---- The wire program's line for bytes taken as a letter: the letter written back, or the number that says no.

fn kind_word(body: Body) -> &'static [u8]
    ensures { result.now ≡ kind_word body }
{
    match body {
        Body::Request => b"0 request ",
        Body::Reply(_) => b"0 reply ",
        Body::Notice(_, _) => b"0 notice ",
    }
}

fn put_body(line: &mut Line, body: Body)
    ensures text { Adds (body_text body) line.old line.new }
    ensures few { length (body_text body) ≤ 12 }
{
    match body {
        Body::Request => {}
        Body::Reply(c) => line.field(c),
        Body::Notice(j, c) => {
            line.field(j as u16);
            line.field(c);
        }
    }
}

fn put_letter(line: &mut Line, net: Net, letter: Letter)
    requires { T (net_holds net) × T (letter_holds (network_of net) letter) }
    ensures text { Adds (letter_text (network_of net) letter) line.old line.new }
    ensures few { length (letter_text (network_of net) letter) ≤ 64 }
{
    // the longest letter's field
    let mut room = [0u8; 8];
    let n = letters::write(net, letter, &mut room).unwrap_or(0);
    line.word(kind_word(letter.body));
    line.field(letter.link);
    line.field(letter.sender);
    put_body(line, letter.body);
    line.bytes(&room[..n]);
    line.word(b"\n");
}

fn put_number_line(line: &mut Line, n: u8)
    ensures text { Adds (refusal_text n) line.old line.new }
    ensures few { length (refusal_text n) ≤ 4 }
{
    line.number(n as u64);
    line.word(b"\n");
}

// A line's bytes taken as a letter.
fn put_read(line: &mut Line, net: Net, bytes: &[u8])
    ensures text { Adds (read_line net bytes.now) line.old line.new }
    ensures few { length (read_line net bytes.now) ≤ 64 }
{
    match letters::read(net, bytes) {
        Ok(letter) => put_letter(line, net, letter),
        Err(error) => put_number_line(line, error.number()),
    }
}
