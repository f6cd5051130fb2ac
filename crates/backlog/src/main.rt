// The backlog program: the events of standard input are taken in one call for each piece that is read, and one line says what came of them
// all; the stations' lines follow, as `events` prints them.
#![tactic(auto)]

ghost use Rattle.std.specs.Prelude.{◌≡◌, ◌==◌, IfOk, if◌then◌else◌};
ghost use Rattle.std.specs.declared.ops.ControlFlow.TheVariants.{Break, Continue};

use backlog_program::Ran;
use inputs::TakePieces;
use state::State;
use std::io;
use std::io::Input;
use std::ops::ControlFlow;

// A file that can't be opened or read counts as empty, as in `events`.
fn main(rt: HostRuntime) -> io::Result<()> {
    let mut file = [0u8; 4097];
    let n = inputs::read_sheet(&rt, &mut file);
    answer_backlog(&rt, &file[..n])
}

fn answer_backlog(rt: &(impl Input + Print), file: &[u8]) -> io::Result<()> {
    let net = match console::open_sheet(file) {
        Ok(net) => net,
        Err(error) => return refuse(rt, error.number()),
    };
    // three numbers for each byte of a piece
    let mut list = [0u32; 196608];
    let mut taker = Taking {
        ran: backlog_program::begin(net),
        list: &mut list,
    };
    inputs::each_piece(&mut rt.reader(), &mut [0; 65536], &mut taker)?;
    let ran = taker.ran;
    let last = ran.state;
    print_backlog(rt, ran.taken, ran.answer, last.flying, ran.tally.settled)?;
    print_stations(rt, last)
}

// What goes on from piece to piece, and the room that each of them uses anew.
#[derive(Drop)]
struct Taking<'a> {
    ran: Ran,
    list: &'a mut [u32],
}

impl TakePieces for Taking<'_> {
    // nothing is read behind an answer that is not 0
    ghost takes = { λ before n room result left after.
        IfOk result (λ told. told ≡ (if after.ran.answer == 0 then Continue tt else Break tt)) };

    fn take_piece(&mut self, n: usize, room: &mut [u8]) -> io::Result<ControlFlow<()>> {
        let size = console::put_piece(n, event_lines::is_begun(self.ran.reading), room);
        let ran = backlog_program::take_lines(self.ran, &room[..size], self.list);
        self.ran = ran;
        Ok(if ran.answer == 0 {
            ControlFlow::Continue(())
        } else {
            ControlFlow::Break(())
        })
    }
}

// Stays: here and in `events` and `page`, since in a library it would take a writer for five lines, and what a terminal takes
// stays unknown all the same.
fn refuse(rt: &impl Print, number: u8) -> io::Result<()> {
    let mut out = [0u8; 4096];
    let n = console::put_refusal(number, &mut out).unwrap_or(0);
    rt.write_all(&out[..n])
}

fn print_backlog(
    rt: &impl Print,
    taken: u64,
    answer: u8,
    flying: u16,
    settled: u64,
) -> io::Result<()> {
    let mut out = [0u8; 4096];
    let n = backlog_program::put_backlog(taken, answer, flying, settled, &mut out).unwrap_or(0);
    rt.write_all(&out[..n])
}

// Stays: here and in `events`, as `refuse`.
fn print_stations(rt: &impl Print, state: State) -> io::Result<()> {
    let mut out = [0u8; 65536];
    let n = event_program::put_stations(state, &mut out).unwrap_or(0);
    rt.write_all(&out[..n])
}
