// Runs the sheet and letters libraries on the cases of standard input and writes what they answer.
// tests/byte_cases.py makes the cases, and what is wanted for them, by a reading of document 01 of its own.
#![tactic(auto)]

use net::{Body, LINK_ROOM, Letter, Net};
use std::io;
use std::io::{Input, Read};

// A case is six bytes and what follows them: its kind, how many bytes follow (in three bytes), and the length of the output to
// write to (in two); high bytes first.
// Kind 0: a sheet to read; the network that it gives is written too.
// Kind 1: a network to write, in 130 bytes: stations, links, 64 lower ends, 64 higher ends.
// Kind 2: a network, and a letter's bytes to read; the letter that they give is written too.
// Kind 3: a network, and a letter to write, in 8 bytes: link (in two), sender (in two), 0, 1 or 2 for request, reply and
// notice, subject, counter (in two).
const ROOM: usize = 1024;

const CASE_ROOM: usize = 70000;

// ---- what is printed

fn print_bytes(rt: &impl Print, bytes: &[u8]) -> io::Result<()> {
    print!(rt; " ")?;
    for b in bytes {
        print!(rt; "{b:02x}")?;
    }
    Ok(())
}

// A place is shown where it is used, or not zero though it should be.
fn print_net(rt: &impl Print, net: &Net) -> io::Result<()> {
    print!(rt; " {} {}", net.stations, net.links)?;
    for (i, low) in net.low.iter().enumerate() {
        let high = net.high[i];
        if i < net.links as usize || *low != 0 || high != 0 {
            print!(rt; " {low} {high}")?;
        }
    }
    Ok(())
}

fn print_letter(rt: &impl Print, letter: Letter) -> io::Result<()> {
    print!(rt; " {} {}", letter.link, letter.sender)?;
    match letter.body {
        Body::Request => print!(rt; " request"),
        Body::Reply(c) => print!(rt; " reply {c}"),
        Body::Notice(subject, c) => print!(rt; " notice {subject} {c}"),
    }
}

// Writes to an output of so many bytes, and prints what the call answered, by the paper's number, and the output after it.
fn show_write<F: FnOnce(&mut [u8]) -> Result<usize, u8>>(
    rt: &impl Print,
    room: usize,
    write: F,
) -> io::Result<()>
    requires { F.IsAlwaysCallable write }
{
    if ROOM < room {
        return Ok(());
    }
    let mut out = [238u8; ROOM];
    match write(&mut out[..room]) {
        Ok(n) => print!(rt; "write 0 {n}")?,
        Err(number) => print!(rt; "write {number}")?,
    }
    print_bytes(rt, &out[..room])?;
    println!(rt;)
}

// ---- sheets

fn show_sheet_write(rt: &impl Print, net: Net, room: usize) -> io::Result<()> {
    show_write(
        rt,
        room,
        |out| sheet::write(net, out).map_err(|e| e.number()),
    )
}

// A refused sheet gives no network: one of no station and no link stands for it.
fn show_sheet_read(rt: &impl Print, bytes: &[u8], room: usize) -> io::Result<()> {
    let none = Net {
        stations: 0,
        links: 0,
        low: [0; LINK_ROOM],
        high: [0; LINK_ROOM],
    };
    let (number, net) = match sheet::read(bytes) {
        Ok(net) => (0, net),
        Err(e) => (e.number(), none),
    };
    print!(rt; "read {number}")?;
    print_net(rt, &net)?;
    println!(rt;)?;
    show_sheet_write(rt, net, room)
}

// ---- letters

fn show_letter_write(rt: &impl Print, net: Net, letter: Letter, room: usize) -> io::Result<()> {
    show_write(
        rt,
        room,
        |out| letters::write(net, letter, out).map_err(|e| e.number()),
    )
}

fn show_letter_read(rt: &impl Print, net: Net, bytes: &[u8], room: usize) -> io::Result<()> {
    match letters::read(net, bytes) {
        Ok(letter) => {
            print!(rt; "read 0")?;
            print_letter(rt, letter)?;
            println!(rt;)?;
            show_letter_write(rt, net, letter, room)
        }
        Err(e) => println!(rt; "read {}", e.number()),
    }
}

fn letter_of(case: &[u8]) -> Option<Letter> {
    let [
        link_high,
        link_low,
        sender_high,
        sender_low,
        kind,
        subject,
        high,
        low,
    ] = case
    else {
        return None;
    };
    let counter = u16::from_be_bytes([*high, *low]);
    Some(Letter {
        link: u16::from_be_bytes([*link_high, *link_low]),
        sender: u16::from_be_bytes([*sender_high, *sender_low]),
        body: match *kind {
            0 => Body::Request,
            1 => Body::Reply(counter),
            _ => Body::Notice(*subject, counter),
        },
    })
}

// ---- the cases

fn run(rt: &impl Print, kind: u8, room: usize, case: &[u8]) -> io::Result<()> {
    if kind == 0 {
        return show_sheet_read(rt, case, room);
    }
    let Some((net, rest)) = cases::split_net(case) else {
        return Ok(());
    };
    match kind {
        1 => show_sheet_write(rt, net, room),
        2 => show_letter_read(rt, net, rest, room),
        _ => match letter_of(rest) {
            Some(letter) => show_letter_write(rt, net, letter, room),
            None => Ok(()),
        },
    }
}

// Reads a case into the buffer and runs it; false where there is none, or none that fits.
fn run_next(rt: &impl Print, input: &mut impl Read, buf: &mut [u8]) -> io::Result<bool> {
    let mut head = [0u8; 6];
    if inputs::read_full(input, &mut head) < head.len() {
        return Ok(false);
    }
    let [kind, top, high, low, room_high, room_low] = head;
    let size = u32::from_be_bytes([0, top, high, low]) as usize;
    if buf.len() < size {
        return Ok(false);
    }
    let got = inputs::read_full(input, &mut buf[..size]);
    let room = u16::from_be_bytes([room_high, room_low]) as usize;
    run(rt, kind, room, &buf[..got])?;
    Ok(true)
}

fn main(rt: HostRuntime) -> io::Result<()> {
    let mut buf = [0u8; CASE_ROOM];
    let mut input = rt.reader();
    // Stays: counted to a bound, since a loop that goes on while there is input has no measure, and no function here may wait.
    for _ in 0..1000000 {
        if !run_next(&rt, &mut input, &mut buf)? {
            break;
        }
    }
    Ok(())
}
