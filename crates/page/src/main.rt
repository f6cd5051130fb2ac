// The page program: the events of standard input are run in the same way as by `events`, and the page is printed at the end.
#![tactic(auto)]

ghost use Rattle.std.specs.Prelude.{◌≡◌, IfOk};
ghost use Rattle.std.specs.declared.ops.ControlFlow.TheVariants.{Continue};

use event_program::Ran;
use inputs::TakePieces;
use page_program::Answers;
use state::State;
use std::io;
use std::io::Input;
use std::ops::ControlFlow;

// A file that can't be opened or read counts as empty, as in `events`.
fn main(rt: HostRuntime) -> io::Result<()> {
    let mut file = [0u8; 4097];
    let n = inputs::read_sheet(&rt, &mut file);
    make_page(&rt, &file[..n])
}

fn make_page(rt: &(impl Input + Print), file: &[u8]) -> io::Result<()> {
    let net = match console::open_sheet(file) {
        Ok(net) => net,
        Err(error) => return refuse(rt, error.number()),
    };
    let mut list = [0u32; 24576];
    let mut trace = [0u64; 24576];
    let mut taker = Counting {
        answers: Answers::default(),
        ran: event_program::begin(net),
        list: &mut list,
        trace: &mut trace,
    };
    inputs::each_piece(&mut rt.reader(), &mut [0; 8192], &mut taker)?;
    print_counts(rt, taker.answers)?;
    print_stations(rt, taker.ran.state, net.stations)
}

// What goes on from piece to piece, and the rooms that each of them uses anew.
#[derive(Drop)]
struct Counting<'a> {
    answers: Answers,
    ran: Ran,
    list: &'a mut [u32],
    trace: &'a mut [u64],
}

impl TakePieces for Counting<'_> {
    // to the end of the input
    ghost takes = { λ before n room result left after. IfOk result (λ told. told ≡ Continue tt) };

    fn take_piece(&mut self, n: usize, room: &mut [u8]) -> io::Result<ControlFlow<()>> {
        let ran = self.ran;
        let size = console::put_piece(n, event_lines::is_begun(ran.reading), room);
        let ran = event_program::run_lines(
            ran.state,
            ran.tally,
            ran.reading,
            &room[..size],
            self.list,
            self.trace,
        );
        self.ran = ran;
        // what `events` would print for them is counted and not written
        let before = self.answers;
        self.answers = page_program::count_answers(&self.trace[..ran.size], before);
        Ok(ControlFlow::Continue(()))
    }
}

// Stays: here and in `events` and `backlog`, since in a library it would take a writer for five lines, and what a terminal takes
// stays unknown all the same.
fn refuse(rt: &impl Print, number: u8) -> io::Result<()> {
    let mut out = [0u8; 4096];
    let n = console::put_refusal(number, &mut out).unwrap_or(0);
    rt.write_all(&out[..n])
}

fn print_counts(rt: &impl Print, answers: Answers) -> io::Result<()> {
    let mut out = [0u8; 4096];
    let n = page_program::put_counts(answers, &mut out).unwrap_or(0);
    rt.write_all(&out[..n])
}

// One buffer for each station.
fn print_stations(rt: &impl Print, state: State, stations: u8) -> io::Result<()> {
    // Stays: the number of a station is what `put_station` takes, so a loop by number is the plain one.
    for i in 0..stations {
        print_station(rt, state, i)?;
    }
    Ok(())
}

fn print_station(rt: &impl Print, state: State, i: u8) -> io::Result<()> {
    let mut out = [0u8; 4096];
    let n = page_program::put_station(state, i, &mut out).unwrap_or(0);
    rt.write_all(&out[..n])
}
