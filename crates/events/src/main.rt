// The event program: a line of standard input is an event, and a line of standard output what came of it. What is read at a time becomes a
// list of events, then one call, then text.
#![tactic(auto)]

ghost use Rattle.std.specs.Prelude.{◌≡◌, IfOk};
ghost use Rattle.std.specs.declared.ops.ControlFlow.TheVariants.{Continue};

use event_program::Ran;
use inputs::TakePieces;
use state::State;
use std::io;
use std::io::Input;
use std::ops::ControlFlow;

// A file that can't be opened or read counts as empty. One byte more than a sheet's file may have is enough to see that it has too many.
fn main(rt: HostRuntime) -> io::Result<()> {
    let mut file = [0u8; 4097];
    let n = inputs::read_sheet(&rt, &mut file);
    answer_events(&rt, &file[..n])
}

fn answer_events(rt: &(impl Input + Print), file: &[u8]) -> io::Result<()> {
    let net = match console::open_sheet(file) {
        Ok(net) => net,
        Err(error) => return refuse(rt, error.number()),
    };
    // made once, since to fill them with zeros takes time: for each byte of a piece three numbers of a line that it may end and three of
    // what comes of it; and 21 bytes for each number of a part
    let mut list = [0u32; 49152];
    let mut trace = [0u64; 49152];
    let mut out = [0u8; 64512];
    let mut taker = Answering {
        rt,
        ran: event_program::begin(net),
        list: &mut list,
        trace: &mut trace,
        out: &mut out,
    };
    inputs::each_piece(&mut rt.reader(), &mut [0; 16384], &mut taker)?;
    print_stations(rt, taker.ran.state)
}

// What goes on from piece to piece, and the rooms that each of them uses anew.
#[derive(Drop)]
struct Answering<'a, P> {
    rt: &'a P,
    ran: Ran,
    list: &'a mut [u32],
    trace: &'a mut [u64],
    out: &'a mut [u8],
}

impl<P: Print> TakePieces for Answering<'_, P> {
    // to the end of the input
    ghost takes = { λ before n room result left after. IfOk result (λ told. told ≡ Continue tt) };

    fn take_piece(&mut self, n: usize, room: &mut [u8]) -> io::Result<ControlFlow<()>> {
        let ran = self.ran;
        let size = console::put_piece(n, event_lines::is_begun(ran.reading), room);
        let ran = event_program::run_lines(
            ran.state,
            ran.tally,
            ran.reading,
            &room[..size],
            self.list,
            self.trace,
        );
        self.ran = ran;
        // written before the next read, so that a pipe stays live
        let rt = self.rt;
        let trace = &mut *self.trace;
        let out = &mut *self.out;
        print_answers(rt, &trace[..ran.size], out)?;
        Ok(ControlFlow::Continue(()))
    }
}

// Stays: here and in `page` and `backlog`, since in a library it would take a writer for five lines, and what a terminal takes
// stays unknown all the same.
fn refuse(rt: &impl Print, number: u8) -> io::Result<()> {
    let mut out = [0u8; 4096];
    let n = console::put_refusal(number, &mut out).unwrap_or(0);
    rt.write_all(&out[..n])
}

// What came of a piece's events, in parts that the output has room for: 1,024 events at most, so that the room is small. Parts of whole
// events print what the whole does (`event_program.Sayings.answers_joined`).
fn print_answers(rt: &impl Print, trace: &[u64], out: &mut [u8]) -> io::Result<()> {
    for part in trace.chunks(3072) {
        let n = event_program::put_answers(part, out).unwrap_or(0);
        rt.write_all(&out[..n])?;
    }
    Ok(())
}

// Stays: here and in `backlog`, as `refuse`.
fn print_stations(rt: &impl Print, state: State) -> io::Result<()> {
    let mut out = [0u8; 65536];
    let n = event_program::put_stations(state, &mut out).unwrap_or(0);
    rt.write_all(&out[..n])
}
