// The reach and the reach report of a live station. The calls, `reach` and `report`, read the state they are given and change nothing of
// it. Only they hold a state: what answers for them takes the network and the links that work.
#![tactic(auto)]

ghost use Rattle.std.specs.Prelude.{◌≡◌, Bool, ◌+◌, ◌<◌, ◌≤◌, length};
ghost use Rattle.lists.specs.Words.{in_word, bit_at};
ghost use Rattle.report.specs.Answers.{asked_of, asked_in};
ghost use Rattle.report.specs.Asking.{number_by, number_in, refusal_number};
ghost use Rattle.lists.specs.Lists.{filled};
ghost use Rattle.report.specs.ReportsAnswers.{answer_of, output_of};
ghost use Rattle.net.specs.Sizes.{station_room, link_room};
ghost use Rattle.fields.specs.Output.{fitting, writing_number, writing_output};
ghost use Rattle.report.specs.Steps.{report_in, link_shown};

use net::{MOST_LINKS, MOST_STATIONS, Net};
use reach::Reached;
use state::State;
use station::Condition;

// The reasons that refuse whoever asks a station.
#[derive(Debug, Clone, Copy, PartialEq, Eq)]
pub enum Refusal {
    // the state isn't well formed
    BadState,
    NoStation,
    // the station isn't live
    NotLive,
    OutputShort,
}

impl Refusal {
    // The paper's number of a refusal.
    // Promise: equals `Asking.refusal_number`: 11, 6, 7 and 10 by the case.
    pub fn number(self) -> u8
        ensures { result ≡ refusal_number self }
    {
        match self {
            Refusal::BadState => 11,
            Refusal::NoStation => 6,
            Refusal::NotLive => 7,
            Refusal::OutputShort => 10,
        }
    }
}

// Whether a station may be asked what it knows, and where it stands: what the reach and the report read of the state alike.
fn may_ask(good: bool, stations: u8, a: u32, condition: Condition) -> Result<(), Refusal>
    ensures { number_in result ≡ number_by good stations a condition }
{
    if !good {
        return Err(Refusal::BadState);
    }
    if stations as u32 <= a {
        return Err(Refusal::NoStation);
    }
    let live = station_kinds::is_live(condition);
    if live { Ok(()) } else { Err(Refusal::NotLive) }
}

// The reach of station a by its own table. Refusals in their order: 11, 6, 7.
// Promise: equals `Answers.asked_of` (seen by `Answers.asked_in`): 11, 6, 7, else word, ones and lowest not reached of
// station a's own table.
pub fn reach(s: State, a: u32) -> Result<Reached, Refusal>
    ensures { asked_in result ≡ asked_of s a }
{
    let good = state::well_formed(s);
    let net = s.net;
    let me = sets::in_room(a);
    let st = s.stations[me as usize];
    may_ask(good, net.stations, a, st.condition)?;
    let working = reach::working_links(net.links, st.counters);
    Ok(reach::reach_of(net, working, me))
}

// ---- The reach report of a live station, as bytes. The call reads the state it is given and changes nothing of it. Only the public
// function holds a state: what answers for it takes the network and the links that work.

// 1 for a station that the word has, 0 for one that it lacks.
fn station_shown(word: u32, t: usize) -> u8
    requires { t < 32 }
    ensures { result ≡ bit_at word t }
{
    ((word >> t) % 2) as u8
}

fn put_stations(out: &mut [u8], word: u32, n: u8)
    requires { (n ≤ station_room) × (n ≤ length out.old) }
    ensures { out.new ≡ filled (bit_at word) out.old n }
{
    for (t, shown) in out[..n as usize].iter_mut().enumerate() {
        *shown = station_shown(word, t);
    }
}

fn put_links(out: &mut [u8], net: Net, working: u64, word: u32, m: u8)
    requires { (m ≤ link_room) × (m ≤ length out.old) }
    ensures { out.new ≡ filled (link_shown net (in_word working) word) out.old m }
{
    for (k, shown) in out[..m as usize].iter_mut().enumerate() {
        *shown = reach::link_shown(net.low[k], net.high[k], sets::has(working, k as u8), word);
    }
}

// The report over the working links, where the output has room for it.
fn written(net: Net, working: u64, me: u8, out: &mut [u8]) -> Result<(), Refusal>
    ensures answer { number_in result ≡ writing_number (fitting (report_in net (in_word working) me) out.old) }
    ensures output { out.new ≡ writing_output (fitting (report_in net (in_word working) me) out.old) out.old }
{
    let n = sets::at_most(net.stations, MOST_STATIONS);
    let m = sets::at_most(net.links, MOST_LINKS);
    let from = n as usize;
    let size = from + m as usize;
    if out.len() < size {
        return Err(Refusal::OutputShort);
    }
    let word = reach::reach_word(net, working, me);
    put_stations(out, word, n);
    put_links(&mut out[from..], net, working, word, m);
    Ok(())
}

// One byte for each station, then one for each link, as station a sees them. Refusals in their order: 11, 6, 7, 10; none of
// them touches the output, and a longer one keeps its tail.
// Promise: the answer and the output after the call: 11, 6, 7, 10 with the output untouched, else the report's bytes and the old tail.
pub fn report(s: State, a: u32, out: &mut [u8]) -> Result<(), Refusal>
    ensures answer { number_in result ≡ answer_of s a out.old }
    ensures output { out.new ≡ output_of s a out.old }
{
    let formed = state::well_formed(s);
    let net = s.net;
    let who = sets::in_room(a);
    let st = s.stations[who as usize];
    may_ask(formed, net.stations, a, st.condition)?;
    let working = reach::working_links(net.links, st.counters);
    written(net, working, who, out)
}
