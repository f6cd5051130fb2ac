// Lines of hexadecimal digits, read byte by byte: a line may be of any length, and its bytes arrive in pieces.
// Inner doors: the calls are in docs/CALLS.md.
#![tactic(auto)]

ghost use Rattle.std.specs.Prelude.{◌≡◌, ◌<◌};
ghost use Rattle.hex_lines.specs.HexSteps.{hex_start, not_hex, with_hex, read_hex, fed_hex, hex_end};
ghost use Rattle.hex_lines.specs.HexBegun.{is_hex_begun};

// A line has no more digits: a byte of the room for each two.
const MOST: usize = 64;

// How far a line of hexadecimal digits has been read.
#[derive(Debug, Clone, Copy, PartialEq, Eq)]
pub struct HexReading {
    // digits so far; above 64 the line is malformed, whatever follows
    // Stays: a malformed line is a count, as `HexSteps.not_hex` and `hex_end` have it, which answer for readings not made here too
    pub count: usize,
    // the digit that waits for the second of its pair
    // Stays: whether one waits is the count's parity, as `HexSteps.with_hex` has it
    pub high: u8,
    // a byte for each pair
    pub bytes: [u8; 32],
}

// A hexadecimal line of which no byte is read.
// Stays: zeros written out, since the derived Default says of an array only that each place holds a default: tried, no plainer to prove.
// Promise: equals `HexSteps.hex_start`: no digit of the line is read yet.
#[tactic(auto, unfolding(crate::specs::HexSteps::hex_start))]
pub fn begin_hex() -> HexReading
    ensures { result ≡ hex_start }
{
    HexReading {
        count: 0,
        high: 0,
        bytes: [0; 32],
    }
}

fn not_hex(r: HexReading) -> HexReading
    ensures { result ≡ not_hex r }
{
    HexReading {
        count: 65,
        high: 0,
        ..r
    }
}

#[tactic(auto, unfolding(crate::specs::HexSteps::with_hex))]
fn with_hex(r: HexReading, digit: u8) -> HexReading
    requires { (digit < 16) × (r.count < 64) }
    ensures { result ≡ with_hex r digit }
{
    if r.count % 2 == 0 {
        return HexReading {
            count: r.count + 1,
            high: digit,
            ..r
        };
    }
    let mut bytes = r.bytes;
    bytes[r.count / 2] = r.high % 16 * 16 + digit;
    HexReading {
        count: r.count + 1,
        high: 0,
        bytes,
    }
}

// One byte more of a hexadecimal line.
fn read_hex(r: HexReading, byte: u8) -> HexReading
    ensures { result ≡ read_hex r byte }
{
    match char::from(byte).to_digit(16) {
        Some(digit) if r.count < MOST => with_hex(r, digit as u8),
        _ => not_hex(r),
    }
}

// Bytes more of a hexadecimal line, whose newline is not one of them.
// Promise: equals `HexSteps.fed_hex`: these bytes one after the other. Of the bytes of a line from its beginning, the three give exactly the
// bytes that the whole line says (`hex_lines.Hex.read_hex_line`).
pub fn read_hex_bytes(r: HexReading, bytes: &[u8]) -> HexReading
    ensures { result ≡ fed_hex r bytes.now }
{
    bytes
        .iter()
        .fold(r, |reading, byte| read_hex(reading, *byte))
}

// What a hexadecimal line says that ends here: so many bytes, at the front of the reading's room.
// Promise: equals `HexSteps.hex_end`: the bytes of the line: hexadecimal digits of either case, an even number of them, at most 64; or
// malformed.
#[tactic(auto, unfolding(crate::specs::HexSteps::hex_end))]
pub fn hex_end(r: HexReading) -> Option<usize>
    ensures { result ≡ hex_end r }
{
    (r.count <= MOST && r.count % 2 == 0).then_some(r.count / 2)
}

// Whether a byte of the line under way is read: "the last newline may be missing".
// Promise: a byte of the line of hexadecimal digits under way is read.
pub fn is_hex_begun(r: HexReading) -> bool
    ensures { result ≡ is_hex_begun r }
{
    r.count != 0
}
