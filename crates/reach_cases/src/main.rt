// Runs the reach library on the cases of standard input and writes what it answers, a line for each question.
// tests/reach_cases.py makes the cases, and what is wanted for them, by a reading of document 01 of its own.
#![tactic(auto)]

use counters::Counters;
use net::{LINK_ROOM, MOST_LINKS};
use std::io;
use std::io::Input;

// A case is 259 bytes: stations, links, 64 lower ends, 64 higher ends, 64 counters (high byte first), the asking station.
const SIZE: usize = 259;

// The counters at the front of what follows the network.
fn counters_of(bytes: &[u8]) -> Counters {
    let mut counters = [0u16; LINK_ROOM];
    for (counter, pair) in counters.iter_mut().zip(bytes.chunks_exact(2)) {
        *counter = u16::from_be_bytes([pair[0], pair[1]]);
    }
    counters
}

fn run(rt: &impl Print, case: &[u8]) -> io::Result<()> {
    let Some((net, rest)) = cases::split_net(case) else {
        return Ok(());
    };
    let [counters @ .., s] = rest else {
        return Ok(());
    };
    let counters = counters_of(counters);
    let rules = if sheet_rules::keeps_sheet_rules(net) {
        "kept"
    } else {
        "broken"
    };
    println!(rt; "rules {rules}")?;
    let working = reach::working_links(net.links, counters);
    let got = reach::reach_of(net, working, *s);
    println!(rt; "reach {} {} {}", got.word, got.ones, got.lowest)?;
    // so many links are there
    let links = net.links.min(MOST_LINKS) as usize;
    print!(rt; "purged")?;
    for counter in &reach::purged(net, working, counters, *s)[..links] {
        print!(rt; " {counter}")?;
    }
    print!(rt; "\nlinks")?;
    for (k, low) in net.low[..links].iter().enumerate() {
        let works = sets::has(working, k as u8);
        print!(rt;
            " {}",
            reach::link_shown(*low, net.high[k], works, got.word)
        )?;
    }
    println!(rt;)
}

fn main(rt: HostRuntime) -> io::Result<()> {
    let mut buf = [0u8; 65536];
    let n = inputs::read_full(&mut rt.reader(), &mut buf);
    for case in buf[..n].chunks_exact(SIZE) {
        run(&rt, case)?;
    }
    Ok(())
}
