// What the programs share, on bytes and values alone: nothing here reads or writes. Running events: crate `event_program`.
// Inner doors: the calls are in docs/CALLS.md.
#![tactic(auto)]

ghost use Rattle.std.specs.Prelude.{◌≡◌, length, IfOk};
ghost use Rattle.console.specs.Sheets.{file_sheet, opened_by, opened_in, refusal_text};
ghost use Rattle.text.specs.Text.{put_at};
ghost use Rattle.fields.specs.Output.{with_room, writing_output};
ghost use Rattle.console.specs.Outputs.{Counts, wrote_by};
ghost use Rattle.console.specs.Feeding.{piece_of};

use net::Net;
use sheet::SheetError;
use text::Line;

// ---- the sheet

// The bytes of the file `network.sheet`; one above 4,096 bytes is refused as 2.
// Promise: the sheet of the file's bytes, 2 where they are more than 4,096.
#[tactic(auto, using(crate::proofs::Files::file_long, crate::proofs::Files::file_read))]
pub fn open_sheet(file: &[u8]) -> Result<Net, SheetError>
    ensures { opened_in result ≡ opened_by (file_sheet file.now) }
{
    if 4096 < file.len() {
        return Err(SheetError::Malformed);
    }
    sheet::read(file)
}

// A number of the list of those that say no.
#[derive(Debug, Clone, Copy, PartialEq, Eq)]
pub struct Refusal(pub u8);

// A refused sheet's number alone; the answer is how many bytes that is, or 10 where the output is too short.
// Promise: a refused sheet's number alone.
pub fn put_refusal(n: u8, out: &mut [u8]) -> Result<usize, Refusal>
    ensures answer { result ≡ wrote_by (with_room 4 (refusal_text n) out.old) }
    ensures output { out.new ≡ writing_output (with_room 4 (refusal_text n) out.old) out.old }
    ensures room { IfOk result (λ n. Counts n out.new) }
{
    if out.len() < 4 {
        return Err(Refusal(10));
    }
    let mut line = Line { out, at: 0 };
    line.number(n as u64);
    line.word(b"\n");
    Ok(line.at)
}

// ---- a piece of the input

// After a read of n bytes into a room. None are the end of the input, where the last line's newline may be missing.
// Promise: the piece of the input stands at the room's front, so many bytes of it: those that were read, or at the end one newline where
// a line is begun.
pub fn put_piece(n: usize, begun: bool, room: &mut [u8]) -> usize
    ensures size { result ≡ length (piece_of n begun room.old) }
    ensures content { room.new ≡ put_at (piece_of n begun room.old) 0 room.old }
    ensures counts { Counts result room.new }
{
    // no read gives more than there is room for
    if room.len() < n {
        return room.len();
    }
    if 0 < n {
        return n;
    }
    if begun && !room.is_empty() {
        room[0] = b'\n';
        return 1;
    }
    0
}
