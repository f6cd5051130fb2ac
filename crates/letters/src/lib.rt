// A letter as bytes, against a network: its rules, both ways; bytes to a letter, and back. The calls are `read` and `write`.
#![tactic(auto)]

ghost use Rattle.std.specs.Prelude.{◌≡◌, ◌≤◌, length, slice_index, IfSome};
ghost use Rattle.fields.specs.Fields.{write_field};
ghost use Rattle.letters.specs.Letters.{form_of, body_bytes};
ghost use Rattle.letters.specs.Values.{error_number, reading, letters_of, write_error_number, writing, wrote_numbers};
ghost use Rattle.letters.specs.Steps.{form_in, values_test};
ghost use Rattle.fields.specs.Output.{fitting, writing_numbers, writing_output};

use net::{Body, Letter, Net};
use std::error::Error;
use std::fmt;

// document 01's tags
const REQUEST: u8 = 0x21;

const REPLY: u8 = 0x22;

const NOTICE: u8 = 0x23;

// Why bytes are no letter of a network.
#[derive(Clone, Copy, Debug, PartialEq, Eq)]
pub enum LetterError {
    // the bytes end inside the field, or there are none
    Short,
    // unknown tag, wrong length, bytes after the field
    Malformed,
    // link, side, subject or counter
    OutOfRange,
    BadNetwork,
}

impl LetterError {
    // Promise: equals `letters.Values.error_number`: the paper's number, 1, 2, 3 or 11.
    pub fn number(self) -> u8
        ensures { result ≡ error_number self }
    {
        match self {
            LetterError::Short => 1,
            LetterError::Malformed => 2,
            LetterError::OutOfRange => 3,
            LetterError::BadNetwork => 11,
        }
    }
}

impl fmt::Display for LetterError {
    fn fmt<W: fmt::Write>(&self, f: &mut fmt::Formatter<W>) -> fmt::Result {
        match self {
            LetterError::Short => write!(f, "the letter ends early"),
            LetterError::Malformed => write!(f, "a malformed letter"),
            LetterError::OutOfRange => write!(f, "a number out of range in the letter"),
            LetterError::BadNetwork => write!(f, "no good network"),
        }
    }
}

impl Error for LetterError {}

// Why a letter is not written.
#[derive(Clone, Copy, Debug, PartialEq, Eq)]
pub enum WriteError {
    OutOfRange,
    OutputShort,
    BadNetwork,
}

impl WriteError {
    // Promise: equals `letters.Values.write_error_number`: the paper's number, 3, 10 or 11.
    pub fn number(self) -> u8
        ensures { result ≡ write_error_number self }
    {
        match self {
            WriteError::OutOfRange => 3,
            WriteError::OutputShort => 10,
            WriteError::BadNetwork => 11,
        }
    }
}

impl fmt::Display for WriteError {
    fn fmt<W: fmt::Write>(&self, f: &mut fmt::Formatter<W>) -> fmt::Result {
        match self {
            WriteError::OutOfRange => write!(f, "a letter of another network"),
            WriteError::OutputShort => write!(f, "the output is too short"),
            WriteError::BadNetwork => write!(f, "no good network"),
        }
    }
}

impl Error for WriteError {}

// What a letter's field says. Side 0 is sent by the lower-numbered end of the link, side 1 by the higher.
#[derive(Clone, Copy)]
struct Said {
    link: u8,
    side: u8,
    body: Body,
}

impl Said {
    // Each tag has its length; none for another tag or another length.
    #[tactic(auto, unfolding(crate::specs::Letters::form_of))]
    fn of(tag: u8, value: &[u8]) -> Option<Said>
        ensures form { form_in result ≡ form_of tag value.now }
        ensures ends { IfSome result (λ s. (s.link ≡ slice_index value.now 0) × (s.side ≡ slice_index value.now 1)) }
    {
        match (tag, value) {
            (REQUEST, [link, side]) => Some(Said {
                link: *link,
                side: *side,
                body: Body::Request,
            }),
            (REPLY, [link, side, high, low]) => Some(Said {
                link: *link,
                side: *side,
                body: Body::Reply(fields::two_bytes(*high, *low)),
            }),
            (NOTICE, [link, side, subject, high, low]) => Some(Said {
                link: *link,
                side: *side,
                body: Body::Notice(*subject, fields::two_bytes(*high, *low)),
            }),
            _ => None,
        }
    }

    // Whether its values are in range, in a network of so many links.
    fn holds(self, links: u8) -> bool
        ensures { result ≡ values_test links self.link self.side self.body }
    {
        self.link < links && self.side <= 1 && net::body_holds(links, self.body)
    }

    // Writes it to the front of the output.
    fn put(self, out: &mut [u8]) -> Result<usize, WriteError>
        ensures answer { wrote_numbers result ≡ writing_numbers (fitting (body_bytes self.link self.side self.body) out.old) }
        ensures output { out.new ≡ writing_output (fitting (body_bytes self.link self.side self.body) out.old) out.old }
    {
        match self.body {
            Body::Request => put_value(out, REQUEST, &[self.link, self.side]),
            Body::Reply(c) => {
                let [high, low] = c.to_be_bytes();
                put_value(out, REPLY, &[self.link, self.side, high, low])
            }
            Body::Notice(subject, c) => {
                let [high, low] = c.to_be_bytes();
                put_value(out, NOTICE, &[self.link, self.side, subject, high, low])
            }
        }
    }
}

// Bytes to a letter.
// Promise: equals `reading`: 11, then 1, 2, 3 by the field, then 2 for bytes after it, else the letter.
pub fn read(net: Net, bytes: &[u8]) -> Result<Letter, LetterError>
    ensures { letters_of result ≡ reading net bytes.now }
{
    if !sheet_rules::keeps_sheet_rules(net) {
        return Err(LetterError::BadNetwork);
    }
    let field = fields::cut_first(bytes).ok_or(LetterError::Short)?;
    let said = Said::of(field.tag, field.value).ok_or(LetterError::Malformed)?;
    if !said.holds(net.links) {
        return Err(LetterError::OutOfRange);
    }
    if !field.rest.is_empty() {
        return Err(LetterError::Malformed);
    }
    let i = said.link as usize;
    let (low, high) = (net.low[i], net.high[i]);
    let sender = if said.side == 0 { low } else { high };
    Ok(Letter {
        link: said.link as u16,
        sender: sender as u16,
        body: said.body,
    })
}

// ---- A letter as bytes, against a network, into lent output.

fn put_value(out: &mut [u8], tag: u8, value: &[u8]) -> Result<usize, WriteError>
    requires { length value.now ≤ 5 }
    ensures answer { wrote_numbers result ≡ writing_numbers (fitting (write_field tag value.now) out.old) }
    ensures output { out.new
        ≡ writing_output (fitting (write_field tag value.now) out.old) out.old }
{
    fields::put(out, tag, value).ok_or(WriteError::OutputShort)
}

// A letter to lent output. A longer output keeps its tail, and a refusal touches none of it.
// Promise: equals `letters.Values.writing`: 11, then 3, then 10, else the bytes of `write_letter`.
pub fn write(net: Net, letter: Letter, out: &mut [u8]) -> Result<usize, WriteError>
    ensures answer { wrote_numbers result ≡ writing_numbers (writing net letter out.old) }
    ensures output { out.new ≡ writing_output (writing net letter out.old) out.old }
{
    if !sheet_rules::keeps_sheet_rules(net) {
        return Err(WriteError::BadNetwork);
    }
    if net.links as u16 <= letter.link {
        return Err(WriteError::OutOfRange);
    }
    let i = letter.link as usize;
    let (low, high) = (net.low[i], net.high[i]);
    if !net::is_end(low, high, letter.sender) || !net::body_holds(net.links, letter.body) {
        return Err(WriteError::OutOfRange);
    }
    let said = Said {
        link: letter.link as u8,
        side: u8::from(low as u16 != letter.sender),
        body: letter.body,
    };
    said.put(out)
}
