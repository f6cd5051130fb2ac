// The wire program: the sheet written back, then each line of standard input as a letter, read and written back.
#![tactic(auto)]

ghost use Rattle.std.specs.Prelude.{◌≡◌, IfOk};
ghost use Rattle.std.specs.declared.ops.ControlFlow.TheVariants.{Continue};

use hex_lines::HexReading;
use inputs::TakePieces;
use net::Net;
use std::io;
use std::io::Input;
use std::ops::ControlFlow;

// A file that can't be opened or read counts as empty, as in `events`.
fn main(rt: HostRuntime) -> io::Result<()> {
    let mut file = [0u8; 4097];
    let n = inputs::read_sheet(&rt, &mut file);
    write_back(&rt, &file[..n])
}

fn write_back(rt: &(impl Input + Print), file: &[u8]) -> io::Result<()> {
    print_sheet(rt, file)?;
    match console::open_sheet(file) {
        Ok(net) => pass_letters(rt, net),
        Err(_) => Ok(()),
    }
}

fn print_sheet(rt: &impl Print, file: &[u8]) -> io::Result<()> {
    let mut out = [0u8; 4096];
    let n = wire_program::put_sheet(file, &mut out).unwrap_or(0);
    rt.write_all(&out[..n])
}

fn pass_letters(rt: &(impl Input + Print), net: Net) -> io::Result<()> {
    let mut out = [0u8; 65536];
    let mut taker = Passing {
        rt,
        net,
        reading: hex_lines::begin_hex(),
        out: &mut out,
    };
    inputs::each_piece(&mut rt.reader(), &mut [0; 1024], &mut taker)
}

// What goes on from piece to piece, and the room that each of them uses anew.
#[derive(Drop)]
struct Passing<'a, P> {
    rt: &'a P,
    net: Net,
    reading: HexReading,
    out: &'a mut [u8],
}

impl<P: Print> TakePieces for Passing<'_, P> {
    // to the end of the input
    ghost takes = { λ before n room result left after. IfOk result (λ told. told ≡ Continue tt) };

    fn take_piece(&mut self, n: usize, room: &mut [u8]) -> io::Result<ControlFlow<()>> {
        let size = console::put_piece(n, hex_lines::is_hex_begun(self.reading), room);
        let rt = self.rt;
        let out = &mut *self.out;
        let passed = wire_program::run_letters(self.net, self.reading, &room[..size], out);
        self.reading = passed.reading;
        // written before the next read, so that a pipe stays live
        rt.write_all(&out[..passed.written])?;
        Ok(ControlFlow::Continue(()))
    }
}
