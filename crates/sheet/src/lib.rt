// A sheet as bytes: its rules, both ways; bytes to a network, and back. The calls are `read` and `write`.
#![tactic(auto)]

ghost use Rattle.std.specs.Prelude.{◌≡◌, ◌≤◌, ◌*◌, length};
ghost use Rattle.net.specs.Sizes.{link_room};
ghost use Rattle.fields.specs.Fields.{first_field, onto};
ghost use Rattle.sheet.specs.Sheet.{opened, judged, read_sheet, write_links};
ghost use Rattle.sheet.specs.Values.{error_number, Says, write_error_number, writing, wrote_numbers};
ghost use Rattle.sheet.specs.Steps.{opening_of, ends_of, link_verdict, verdict_of, links_of, first_ends};
ghost use Rattle.fields.specs.Output.{writing_numbers, writing_output};

use net::{LINK_ROOM, MOST_LINKS, MOST_STATIONS, Net};
use std::error::Error;
use std::fmt;

// document 01's tags
const STATIONS: u8 = 0x01;

const LINK: u8 = 0x02;

const END: u8 = 0x0F;

// Why bytes are no sheet.
#[derive(Clone, Copy, Debug, PartialEq, Eq)]
pub enum SheetError {
    // the bytes end inside a field, or before the last one
    Short,
    // unknown tag, wrong length, a field out of its place, bytes after the end
    Malformed,
    // the station count, or a link's ends
    OutOfRange,
    // a link equal to or before the one before it
    OutOfOrder,
    TooManyLinks,
}

impl SheetError {
    // Promise: equals `Values.error_number`: the paper's number, 1 to 5.
    pub fn number(self) -> u8
        ensures { result ≡ error_number self }
    {
        match self {
            SheetError::Short => 1,
            SheetError::Malformed => 2,
            SheetError::OutOfRange => 3,
            SheetError::OutOfOrder => 4,
            SheetError::TooManyLinks => 5,
        }
    }
}

impl fmt::Display for SheetError {
    fn fmt<W: fmt::Write>(&self, f: &mut fmt::Formatter<W>) -> fmt::Result {
        match self {
            SheetError::Short => write!(f, "the sheet ends early"),
            SheetError::Malformed => write!(f, "a malformed field in the sheet"),
            SheetError::OutOfRange => write!(f, "a number out of range in the sheet"),
            SheetError::OutOfOrder => write!(f, "links out of order in the sheet"),
            SheetError::TooManyLinks => write!(f, "too many links in the sheet"),
        }
    }
}

impl Error for SheetError {}

// Why a network is not written.
#[derive(Clone, Copy, Debug, PartialEq, Eq)]
pub enum WriteError {
    OutputShort,
    BadNetwork,
}

impl WriteError {
    // Promise: equals `Values.write_error_number`: the paper's number, 10 or 11.
    pub fn number(self) -> u8
        ensures { result ≡ write_error_number self }
    {
        match self {
            WriteError::OutputShort => 10,
            WriteError::BadNetwork => 11,
        }
    }
}

impl fmt::Display for WriteError {
    fn fmt<W: fmt::Write>(&self, f: &mut fmt::Formatter<W>) -> fmt::Result {
        match self {
            WriteError::OutputShort => write!(f, "the output is too short"),
            WriteError::BadNetwork => write!(f, "no good network"),
        }
    }
}

impl Error for WriteError {}

// The number of stations, and the bytes after the first field.
#[tactic(auto, unfolding(crate::specs::Sheet::opened))]
fn first_field(bytes: &[u8]) -> Result<(u8, &[u8]), SheetError>
    ensures { opening_of result ≡ opened (first_field bytes.now) }
{
    let field = fields::cut_first(bytes).ok_or(SheetError::Short)?;
    let (STATIONS, [n]) = (field.tag, field.value) else {
        return Err(SheetError::Malformed);
    };
    if !(1..=MOST_STATIONS).contains(n) {
        return Err(SheetError::OutOfRange);
    }
    Ok((*n, field.rest))
}

// A link's ends, in a sheet of n stations; the link before it has the ends `before`.
#[tactic(auto, unfolding(crate::specs::Steps::link_verdict))]
fn check_link(n: u8, before: (u8, u8), low: u8, high: u8) -> Result<(), SheetError>
    ensures { result ≡ link_verdict n before.0 before.1 low high }
{
    if high <= low || n <= high {
        return Err(SheetError::OutOfRange);
    }
    if (low, high) <= before {
        return Err(SheetError::OutOfOrder);
    }
    Ok(())
}

// A field after the first: a link and the bytes after it, or none where it is the last.
#[tactic(auto, unfolding(crate::specs::Sheet::judged, crate::specs::Steps::link_verdict))]
fn next_field(
    bytes: &[u8],
    n: u8,
    before: (u8, u8),
) -> Result<Option<((u8, u8), &[u8])>, SheetError>
    ensures { verdict_of result ≡ judged n (ends_of before.0 before.1) (first_field bytes.now) }
{
    let field = fields::cut_first(bytes).ok_or(SheetError::Short)?;
    match (field.tag, field.value) {
        (LINK, [low, high]) => {
            check_link(n, before, *low, *high)?;
            Ok(Some(((*low, *high), field.rest)))
        }
        (END, []) if field.rest.is_empty() => Ok(None),
        _ => Err(SheetError::Malformed),
    }
}

// The links of a sheet of n stations, from the bytes after its first field.
fn read_links(bytes: &[u8], n: u8) -> Result<Net, SheetError>
    ensures { Says result (links_of n bytes.now) }
{
    let mut net = Net {
        stations: n,
        links: 0,
        low: [0; LINK_ROOM],
        high: [0; LINK_ROOM],
    };
    let mut before = (0, 0);
    let mut rest = bytes;
    while let Some((ends, after)) = next_field(rest, n, before)? {
        if MOST_LINKS <= net.links {
            return Err(SheetError::TooManyLinks);
        }
        let i = net.links as usize;
        (net.low[i], net.high[i]) = ends;
        net.links += 1;
        before = ends;
        rest = after;
    }
    Ok(net)
}

// Bytes to a network.
// Promise: `Says r (read_sheet bytes)`: the network, or the refusal's number and no network.
pub fn read(bytes: &[u8]) -> Result<Net, SheetError>
    ensures { Says result (read_sheet bytes.now) }
{
    let (n, rest) = first_field(bytes)?;
    read_links(rest, n)
}

// ---- A network as a sheet's bytes, into lent output.

// The links of a network, field by field.
fn put_links(out: &mut [u8], net: &Net)
    requires { (net.now.links ≤ link_room) × (5 * net.now.links ≤ length out.old) }
    ensures { out.new ≡ onto (write_links (first_ends net.now.low net.now.high net.now.links)) out.old }
{
    for (i, low) in net.low[..net.links as usize].iter().enumerate() {
        fields::put(&mut out[5 * i..], LINK, &[*low, net.high[i]]);
    }
}

// A network to lent output. A longer output keeps its tail, and a refusal touches none of it.
// Promise: equals `Values.writing`: 11, then 10, else the bytes of `write_sheet`.
pub fn write(net: Net, out: &mut [u8]) -> Result<usize, WriteError>
    ensures answer { wrote_numbers result ≡ writing_numbers (writing net out.old) }
    ensures output { out.new ≡ writing_output (writing net out.old) out.old }
{
    if !sheet_rules::keeps_sheet_rules(net) {
        return Err(WriteError::BadNetwork);
    }
    let end = 4 + 5 * net.links as usize;
    let size = end + 3;
    if out.len() < size {
        return Err(WriteError::OutputShort);
    }
    fields::put(out, STATIONS, &[net.stations]);
    put_links(&mut out[4..], &net);
    fields::put(&mut out[end..], END, b"");
    Ok(size)
}
