// What the programs read by: an input, up to the room that there is for it or piece by piece, and the sheet's file.
#![tactic(auto)]

ghost use Rattle.std.specs.Prelude.{◌≤◌, ℕ, List, length, take};
ghost use Rattle.std.specs.Io.KnownBytes.{Consumes};
ghost use Rattle.std.specs.declared.io.Error.{Error};
ghost use Rattle.inputs.specs.Pieces.{Answer, HandsOn};

use std::io::Read;
use std::ops::ControlFlow;
use std::rt::Files;
use std::{fs, io};

// Reads until the room is full, the input ends or a read fails.
// Promise: the count is within the room, and so many bytes at its front are the next of the input, where those are known. How many come is
// not promised, since any read may fail.
pub fn read_full<R: Read>(from: &mut R, room: &mut [u8]) -> usize
    ensures counts { result ≤ length room.new }
    ensures bytes { Consumes (R.remaining from.old) (R.remaining from.new) (take result room.new) }
{
    let mut done = 0;
    while done < room.len() {
        match from.read(&mut room[done..]) {
            Ok(0) | Err(_) => break,
            Ok(n) => done += n,
        }
    }
    done
}

// Reads the sheet's file to the room's front. One that can't be opened or read counts as empty.
// Promise: the count is within the room, and no more: no clause can say what a file gives.
pub fn read_sheet(files: &impl Files, room: &mut [u8]) -> usize
    ensures { result ≤ length room.new }
{
    match fs::open(files, "network.sheet") {
        Ok(mut file) => read_full(&mut file, room),
        Err(_) => 0,
    }
}

// What is done with the pieces of an input, one after the other.
pub trait TakePieces {
    // what a call may come to, at a count and a room: the answer, the room behind it, and what goes on to the next call
    ghost takes: { Self → ℕ → List ℕ → Answer Error → List ℕ → Self → Type 0 };

    // Takes the piece of so many bytes at the room's front; none, where the input ends. It may break off: then no further piece comes.
    // Promise: what the call comes to is one of what `takes` says, at every count and room.
    fn take_piece(&mut self, n: usize, room: &mut [u8]) -> io::Result<ControlFlow<()>>
        ensures { takes self.old n room.old result room.new self.new };
}

// Reads a piece at a time to the room's front, and hands it on with its count of bytes, up to the read that gives none, which is handed on
// too. It ends early where the taker breaks off, or where a read or the taker fails. A proved loop has to end, and nothing says that an
// input does: its turns are counted, up to a number that no run comes to.
// Promise: the pieces that were handed on, one after the other, are the bytes that are gone of the input, where those are known; after Ok
// the last of them was empty or the taker broke off at it, or all turns are counted.
pub fn each_piece<R: Read, T: TakePieces>(
    from: &mut R,
    room: &mut [u8],
    taker: &mut T,
) -> io::Result<()>
    ensures { HandsOn T.takes taker.old taker.new (R.remaining from.old) (R.remaining from.new) result }
{
    for _ in 0..u64::MAX {
        let n = from.read(room)?;
        if taker.take_piece(n, room)?.is_break() || n == 0 {
            break;
        }
    }
    Ok(())
}
