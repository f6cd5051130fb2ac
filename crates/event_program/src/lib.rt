// The event program, on bytes and values alone: the lines of a piece of the input become a list of events, one call takes them, and what
// stands in its trace is printed; at the end the stations' lines. Nothing here reads or writes.
// Inner doors: the calls are in docs/CALLS.md.
#![tactic(auto)]

ghost use Rattle.std.specs.Prelude.{◌≡◌, ◌+◌, ◌<◌, ◌≤◌, length, IfOk};
ghost use Rattle.console.specs.Outputs.{Counts, Put, wrote_by};
ghost use Rattle.fields.specs.Output.{with_room, writing_output};
ghost use Rattle.text.specs.Line.{Adds};
ghost use Rattle.event_list.specs.Lines.{listing};
ghost use Rattle.event_program.specs.Events.{answer_text};
ghost use Rattle.event_program.specs.Runs.{running, ran_by, first_ran, answers_text, answers_most};
ghost use Rattle.event_program.specs.Stations.{station_text, station_most, stations_text, stations_most};

use console::Refusal;
use event_lines::Reading;
use net::Net;
use state::State;
use tally::Tally;
use text::Line;

// ---- events

// After a piece of the input: 0 or the number that says no, how many numbers stand at the trace's front, and all that goes on from there.
// To do (docs/DESIGN-PASS.md, 1): an error in place of the number; the state stays beside it, since a refusal hands it
// back (`Runs.ran_by`).
#[derive(Clone, Copy)]
pub struct Ran {
    pub answer: u8,
    pub size: usize,
    pub reading: Reading,
    pub tally: Tally,
    pub state: State,
}

// What the event program holds before its first line.
// Promise: the fresh state of the network, no counts, and no byte of a line read.
pub fn begin(net: Net) -> Ran
    ensures { result ≡ first_ran net }
{
    let begun = state::fresh(net);
    Ran {
        answer: begun.answer,
        size: 0, // no event yet
        reading: event_lines::begin(),
        tally: Tally::default(),
        state: begun.state,
    }
}

// Runs the event lines that end in these bytes by one call; the lent list is the room for their numbers, the trace for what came of them.
// Promise: for the lines that end in these bytes, in the trace and in the answer what the steps one by one come to (`Answers.turns`), and
// the reading of the line under way behind them; 10 where the list has fewer than three places for each byte or the trace is too short, 11
// for a bad state: then state, tally, reading and trace are as they were.
pub fn run_lines(
    given: State,
    t: Tally,
    r: Reading,
    bytes: &[u8],
    list: &mut [u32],
    trace: &mut [u64],
) -> Ran
    ensures answer { result ≡ ran_by (running given t r bytes.now list.old trace.old) given t r
        bytes.now }
    ensures list { list.new ≡ writing_output (listing r bytes.now list.old) list.old }
    ensures trace { trace.new ≡ writing_output
        (running given t r bytes.now list.old trace.old) trace.old }
    ensures room { Counts result.size trace.new }
{
    let listed = match event_list::list_lines(r, bytes, list) {
        Ok(listed) => listed,
        Err(short) => {
            return Ran {
                answer: short.number(),
                size: 0,
                reading: r,
                tally: t,
                state: given,
            };
        }
    };
    let done = backlog_run::run_with_answers(given, t, &list[..listed.size], trace);
    if done.answer != 0 {
        return Ran {
            answer: done.answer,
            size: 0,
            reading: r,
            tally: done.tally,
            state: done.state,
        };
    }
    Ran {
        answer: 0,
        size: listed.size,
        reading: listed.reading,
        tally: done.tally,
        state: done.state,
    }
}

// Answer, letters in flight, notices settled so far.
// To do (docs/DESIGN-PASS.md, 5): on a `text::Line`; it runs for each event, so it has to be measured.
fn put_answer(out: &mut [u8], at: usize, answer: u64, flying: u64, settled: u64) -> usize
    requires { at + 63 ≤ length out.old }
    ensures { Put (answer_text answer flying settled) 63 at out.old result out.new }
{
    let a = text::put_number(out, at, answer);
    out[a] = b' ';
    let c = text::put_number(out, a + 1, flying);
    out[c] = b' ';
    let e = text::put_number(out, c + 1, settled);
    out[e] = b'\n';
    e + 1
}

// A line for each event of a trace.
// Promise: for each three numbers of the trace the line that document 01 has the event program print: answer, letters in flight, notices
// settled so far; 10 where the output has fewer than 21 bytes for each number.
pub fn put_answers(trace: &[u64], out: &mut [u8]) -> Result<usize, Refusal>
    ensures answer { result ≡ wrote_by (with_room (answers_most trace.now) (answers_text trace.now)
        out.old) }
    ensures output { out.new ≡ writing_output (with_room (answers_most trace.now) (answers_text trace.now)
        out.old) out.old }
    ensures room { IfOk result (λ n. Counts n out.new) }
{
    // no number has more than 20 digits, and one byte stands behind each
    if out.len() / 21 < trace.len() {
        return Err(Refusal(10));
    }
    let mut at = 0;
    let (events, _) = trace.as_chunks::<3>();
    for &[answer, flying, settled] in events {
        at = put_answer(out, at, answer, flying, settled);
    }
    Ok(at)
}

// ---- Where the stations stand at the end of the event program: each station's counters, on bytes and values alone. Nothing here reads
// or writes.

// A station's number and its counters by link.
fn put_station(line: &mut Line, i: usize, counters: &[u16])
    requires { (i < 256) × (length counters.now ≤ 64) }
    ensures text { Adds (station_text i counters.now) line.old line.new }
    ensures few { length (station_text i counters.now) ≤ station_most }
{
    line.number(i as u64);
    for counter in counters {
        line.word(b" ");
        line.number(*counter as u64);
    }
    line.word(b"\n");
}

// One line per station.
// Promise: one line per station, its number and its counters by link.
pub fn put_stations(s: State, out: &mut [u8]) -> Result<usize, Refusal>
    ensures answer { result ≡ wrote_by (with_room stations_most (stations_text s) out.old) }
    ensures output { out.new ≡ writing_output (with_room stations_most (stations_text s) out.old)
        out.old }
    ensures room { IfOk result (λ n. Counts n out.new) }
{
    // 32 lines, each of at most 400 bytes
    if out.len() < 12800 {
        return Err(Refusal(10));
    }
    let stations = s.net.stations.min(32) as usize;
    let links = s.net.links.min(64) as usize;
    let mut line = Line { out, at: 0 };
    for (i, station) in s.stations[..stations].iter().enumerate() {
        put_station(&mut line, i, &station.counters[..links]);
    }
    Ok(line.at)
}
