// The whole network as one value: what every station holds and the letters in flight, and its test (11).
// Inner doors: the calls are in docs/CALLS.md.
#![tactic(auto)]

ghost use Rattle.std.specs.Prelude.{◌≡◌, true, ◌&&◌, ◌||◌, length, min, replicate, ◌≤◌, leb, eqb, if◌then◌else◌};
ghost use Rattle.sheet_rules.specs.Values.{net_holds};
ghost use Rattle.state.specs.State.{is_request, is_no_letter, place_test, state_holds, Fits, Sized};
ghost use Rattle.net.specs.Values.{network_of};
ghost use Rattle.station.specs.Acts.{stop_act};
ghost use Rattle.station.specs.Done.{done_by};
ghost use Rattle.station.specs.Holding.{nobody};
ghost use Rattle.net.specs.Sizes.{letter_room};
ghost use Rattle.station.specs.Values.{laid, blank};
ghost use Rattle.world.specs.World.{no_letter};
ghost use Rattle.state.specs.Beginning.{begun_of};

use marks::Words;
use net::{Body, LETTER_ROOM, LINK_ROOM, Letter, MOST_LETTERS, MOST_STATIONS, Net, STATION_ROOM};
use station::{Condition, Station};

// Stations and letters stand at the places from 0 on; the first `flying` letters are in flight; unused places are zero.
#[derive(Clone, Copy)]
pub struct State {
    pub net: Net,
    pub flying: u16,
    pub stations: [Station; STATION_ROOM],
    pub letters: [Letter; LETTER_ROOM],
}

// ---- the test

// Whether a place of the stations is right: an unused one is down, with no mark and no counter, as a station without links.
// What the type says of the station is told along: the network's step needs it of every station of a state.
// Promise: equals `State.place_test`: a station that is there, well formed by these links and own links; else an unused place, zero; with
// a station's own links this is `State.station_place` (`Places.place_is`). And what the type itself says of the station.
pub fn station_place(links: u8, used: bool, own: u64, st: Station) -> bool
    ensures { (result ≡ place_test links used own st) × Fits st }
{
    let stands = used || station_kinds::is_down(st.condition);
    // an unused place has no links
    let there = if used { links } else { 0 };
    let formed = state_rules::station_formed(there, own, st);
    stands && formed
}

// 0 of a request, which an unused place holds, and of nothing else.
fn tag_of(b: Body) -> u64
    ensures { (eqb result 0 ≡ is_request b) × (result ≤ 2) }
{
    match b {
        Body::Request => 0,
        Body::Reply(_) => 1,
        Body::Notice(_, _) => 2,
    }
}

// 0 of an unused place of the letters, and of nothing else. Its parts stand side by side as in memory, so that it is one load; the words of
// all unused places are joined with no jump between them.
// Promise: 0 where the letter is that of an unused place (`State.is_no_letter`), and nowhere else.
pub fn word_of(x: Letter) -> u64
    ensures { eqb result 0 ≡ is_no_letter x }
{
    x.link as u64 + x.sender as u64 * 65536 + tag_of(x.body) * 4294967296
}

// Whether the network is good and no more letters are in flight than there is room for.
// Promise: the network keeps the sheet rules (`Values.net_holds`), and at most 4,096 letters are in flight.
pub fn frame_holds(net: Net, flying: u16) -> bool
    ensures { result ≡ (net_holds net && leb flying letter_room) }
{
    sheet_rules::keeps_sheet_rules(net) && flying <= MOST_LETTERS
}

// As many places of the letters as are used, whatever the number: no more than there are.
// Promise: the number, or 4,096 if it is larger.
pub fn used_places(flying: u16) -> u16
    ensures { result ≡ min flying letter_room }
{
    flying.min(MOST_LETTERS)
}

// Whether all that was seen of a state is right: its frame, its stations, its letters in flight and the places beyond them.
// Promise: all four tests pass.
pub fn all_hold(framed: bool, placed: bool, carried: bool, rest: u64) -> bool
    ensures { result ≡ ((framed && placed) && (carried && eqb rest 0)) }
{
    framed && placed && carried && rest == 0
}

// Whether the state is well formed. Where not, a call that is given it refuses with 11.
// Promise: equals `State.state_holds`, every clause of document 01's paragraph (what the type itself says of a well-formed value, its
// arrays' sizes and its words' widths, is told along).
pub fn well_formed(s: State) -> bool
    ensures { (result ≡ state_holds s) × (result ≡ true → Sized s) }
{
    let net = s.net;
    let flying = s.flying;
    let framed = frame_holds(net, flying);
    let owns = marks::own_words(net);
    let mut placed = true;
    let n = net.stations as usize;
    for (i, st) in s.stations.iter().enumerate() {
        placed &= station_place(net.links, i < n, owns[i], *st);
    }
    let used = used_places(flying);
    let mut ways: u64 = 0;
    let mut ended: u64 = 1;
    let mut most: u16 = 0;
    let mut least: u16 = 1;
    for x in s.letters[..used as usize].iter() {
        let k = x.sender as usize % STATION_ROOM;
        ways = state_rules::joined_ways(ways, x.link, x.sender);
        ended = state_rules::still_ended(ended, owns[k], x.link);
        most = state_rules::larger(most, state_rules::past_subject(x.body));
        least = state_rules::smaller(least, state_rules::counter_said(x.body));
    }
    // the places beyond them, from two starts at once: each joining waits for the one before it.
    // to do (docs/DESIGN-PASS.md, 6): a zip of the two parts
    let half = (MOST_LETTERS - used + 1) / 2;
    let first = used as usize;
    let second = (MOST_LETTERS - half) as usize;
    let mut rest: u64 = 0;
    for j in 0..half {
        let at = first + j as usize;
        let to = second + j as usize;
        let x = s.letters[at];
        let y = s.letters[to];
        rest |= word_of(x) | word_of(y);
    }
    let carried = state_rules::letters_formed(net.links, ways, ended, most, least);
    all_hold(framed, placed, carried, rest)
}

// ---- The state right after a sheet is read: every station down, no letter in flight.

// A state just made, or the number that says no.
// To do (docs/DESIGN-PASS.md, 1): an error in place of the number, and no state beside it (`Beginning.begun_of`).
#[derive(Clone, Copy)]
pub struct Begun {
    pub answer: u8,
    pub state: State,
}

fn no_station() -> Station
    ensures { result ≡ blank }
{
    Station {
        condition: Condition::Down,
        counters: [0u16; LINK_ROOM],
        marks: Words::default(),
    }
}

// Down, counters 1, no mark.
fn down_station(net: Net) -> Station
    ensures { result ≡ laid net blank (done_by (network_of net) 0 nobody stop_act).holding }
{
    Station {
        counters: station_table::fresh_counters(net.links),
        ..no_station()
    }
}

// Each of these stations becomes the one that is given.
fn fill_stations(stations: &mut [Station], down: Station)
    ensures { stations.new ≡ replicate (length stations.old) down }
{
    stations.fill(down);
}

// The state with every station down and no letter in flight; 11 for a bad network, with a state that no call accepts.
// Promise: equals `Beginning.begun_of`: 0 and the state in which every station is down and no letter is in flight; 11 for a bad network,
// with a state that no call accepts.
pub fn fresh(net: Net) -> Begun
    ensures { result ≡ begun_of net }
{
    let nobody = no_station();
    let mut stations = [nobody; STATION_ROOM];
    let unused = Letter::default();
    let letters = [unused; LETTER_ROOM];
    if !sheet_rules::keeps_sheet_rules(net) {
        return Begun {
            answer: 11,
            state: State {
                net,
                flying: 0,
                stations,
                letters,
            },
        };
    }
    let down = down_station(net);
    let n = net.stations as usize;
    fill_stations(&mut stations[..n], down);
    Begun {
        answer: 0,
        state: State {
            net,
            flying: 0, // no letter
            stations,
            letters,
        },
    }
}
