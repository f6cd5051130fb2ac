// What an event names, what it comes to at the station that it concerns, and what becomes of the list of letters: what a step asks of an
// event before it changes anything. Each function takes the few values that it asks for, and no state. Every public function answers
// every input.
// Inner doors: the calls are in docs/CALLS.md.
#![tactic(auto)]

ghost use Rattle.std.specs.Prelude.{◌≡◌, ◌&&◌, min, ◌%◌, ltb, eqb, if◌then◌else◌};
ghost use Rattle.world.specs.World.{no_letter, is_link_at, receiver_in, concerned_by, exists_as};
ghost use Rattle.step_parts.specs.Parts.{place_by, fewer_by, number_by, names_by, plan_by, PlansAt, room_by};
ghost use Rattle.net.specs.Network.{ends};
ghost use Rattle.net.specs.Sizes.{station_room, link_room};
ghost use Rattle.net.specs.Values.{network_of};
ghost use Rattle.station.specs.Acts.{subject_of};
ghost use Rattle.station.specs.Events.{takes_letter, link_of};
ghost use Rattle.sets.specs.Rooms.{in_room};

use net::{Body, LETTER_ROOM, LINK_ROOM, Letter, MOST_LINKS, MOST_STATIONS, Net};
use station::{Kind, Station};
use station_event::Here;
use station_plan::Plan;

// The rooms, in the widths of an event's numbers and of a letter's link.
const EVENT_LETTERS: u32 = LETTER_ROOM as u32;

const EVENT_LINKS: u32 = LINK_ROOM as u32;

const LETTER_LINKS: u16 = LINK_ROOM as u16;

// ---- what the numbers of an event mean: which station it concerns, whether there is what it names, and which link and subject it is
// about

// A link's two ends.
#[derive(Debug, Clone, Copy, PartialEq, Eq, Default)]
struct Ends {
    low: u8,
    high: u8,
}

// A link that is not there has the ends 0 and 0.
fn ends_of(net: Net, k: u32) -> Ends
    ensures { (result.low ≡ (ends (network_of net) k).low) × (result.high ≡ (ends (network_of net) k).high) }
{
    let links = net.links.min(MOST_LINKS);
    if u32::from(links) <= k {
        return Ends::default();
    }
    let i = k as usize;
    Ends {
        low: net.low[i],
        high: net.high[i],
    }
}

// The end of a letter's link that is not its sender.
fn receiver(net: Net, letter: Letter) -> u8
    ensures { result ≡ receiver_in (network_of net) letter }
{
    let e = ends_of(net, letter.link as u32);
    if u16::from(e.low) == letter.sender {
        e.high
    } else {
        e.low
    }
}

// Whether an event of this kind takes a letter off the list.
fn takes_letter(kind: Kind) -> bool
    ensures { result ≡ takes_letter kind }
{
    // a lost letter leaves too, though nobody hears it
    matches!(kind, Kind::Delivery | Kind::Loss)
}

// Whose station an event concerns: a, or the receiver of the letter that it takes off. Always below 32, so that it may be read in
// the room of stations.
fn concerned(net: Net, kind: Kind, a: u32, letter: Letter) -> u8
    ensures { result ≡ in_room (concerned_by kind (network_of net) a letter) }
{
    if takes_letter(kind) {
        sets::in_room(u32::from(receiver(net, letter)))
    } else {
        sets::in_room(a)
    }
}

// The link that an event is about, for a room of 64: that of the letter, or b.
fn link_of(kind: Kind, b: u32, letter: Letter) -> u8
    ensures { result ≡ link_of kind b letter % link_room }
{
    if takes_letter(kind) {
        (letter.link % LETTER_LINKS) as u8
    } else {
        (b % EVENT_LINKS) as u8
    }
}

// The link that a letter tells of, for a room of 64.
fn subject_of(letter: Letter) -> u8
    ensures { result ≡ subject_of letter.body % link_room }
{
    match letter.body {
        Body::Request | Body::Reply(_) => 0,
        Body::Notice(j, _) => j % MOST_LINKS,
    }
}

// ---- 6

// Whether a is a station, and b is not used.
fn station_named(stations: u8, a: u32, b: u32) -> bool
    ensures { result ≡ (ltb a (min stations station_room) && eqb b 0) }
{
    let stations = stations.min(MOST_STATIONS);
    a < u32::from(stations) && b == 0
}

// Whether b is a link at the station a.
fn link_at(net: Net, a: u32, b: u32) -> bool
    ensures { result ≡ is_link_at (network_of net) a b }
{
    let links = net.links.min(MOST_LINKS);
    let e = ends_of(net, b);
    b < u32::from(links) && (u32::from(e.low) == a || u32::from(e.high) == a)
}

// Whether a is a station, and b a link there.
fn link_named(net: Net, a: u32, b: u32) -> bool
    ensures { result ≡ (ltb a (min net.stations station_room) && is_link_at (network_of net) a b) }
{
    let stations = net.stations.min(MOST_STATIONS);
    a < u32::from(stations) && link_at(net, a, b)
}

// Whether a is a letter in flight, and b is not used.
fn letter_named(flying: u16, a: u32, b: u32) -> bool
    ensures { result ≡ (ltb a flying && eqb b 0) }
{
    a < u32::from(flying) && b == 0
}

// Whether there is such an event kind, station, link at that station or letter, and an unused number is 0; where not, the
// event is refused with 6.
fn there(net: Net, flying: u16, kind: Kind, a: u32, b: u32) -> bool
    ensures { result ≡ exists_as kind (network_of net) flying a b }
{
    match kind {
        Kind::NoSuch => false,
        Kind::Start | Kind::Stop | Kind::Recovery => station_named(net.stations, a, b),
        Kind::IntervalEnd | Kind::TimeoutEnd | Kind::QuietEnd => link_named(net, a, b),
        Kind::Delivery | Kind::Loss => letter_named(flying, a, b),
    }
}

// What an event names: the station that it concerns (a place of the 32), whether there is what it names (where not, 6), the link that it
// is about and the link that its letter tells of (places of the 64).
#[derive(Debug, Clone, Copy, PartialEq, Eq)]
pub struct Names {
    pub station: u8,
    pub there: bool,
    pub link: u8,
    pub subject: u8,
}

// Promise: equals `Parts.names_by`: the station that the event concerns, whether there is what it names, its link and its letter's subject,
// by definition.
pub fn names_of(net: Net, flying: u16, kind: Kind, a: u32, b: u32, letter: Letter) -> Names
    ensures { result ≡ names_by net flying kind a b letter }
{
    let station = concerned(net, kind, a, letter);
    let named = there(net, flying, kind, a, b);
    let link = link_of(kind, b, letter);
    let subject = subject_of(letter);
    Names {
        station,
        there: named,
        link,
        subject, // a notice comes on one link and tells of another
    }
}

// ---- the station

// What the event comes to at the station that it concerns, in words. own: the station's links.
// Promise: equals `Parts.plan_by`: station_event's plan of what the event names, with the station's condition and marks and the counters of
// the two links; and at every station that has these words this is what the event comes to there, by document 01 (`Parts.PlansAt`).
pub fn plan_at(names: Names, kind: Kind, own: u64, letter: Letter, st: Station) -> Plan
    ensures { (result ≡ plan_by names kind own letter st) × PlansAt names kind own letter st result }
{
    let on = (names.link % MOST_LINKS) as usize;
    let of = (names.subject % MOST_LINKS) as usize;
    let here = Here {
        own,
        me: names.station,
        link: names.link,
        counter: st.counters[on],
        told: st.counters[of],
        condition: st.condition,
        marks: st.marks,
    };
    station_event::events::plan_event(names.there, kind, letter, here)
}

// ---- the room of letters

// The place of the letter that a names, where there is one; the event may mean none.
// Promise: equals `Parts.place_by`: a where that is a place of the room of letters, else 0.
pub fn place_of(a: u32) -> usize
    ensures { result ≡ place_by a }
{
    if a < EVENT_LETTERS { a as usize } else { 0 }
}

// How many letters are left of those in flight.
fn left_of(leaves: bool, flying: u16) -> u16
    ensures { result ≡ fewer_by leaves flying }
{
    if leaves {
        flying.saturating_sub(1)
    } else {
        flying
    }
}

// The number that the plan says, or 9 where so many letters more would be too many.
fn number_of(planned: u8, left: u16, count: u16) -> u8
    ensures { result ≡ number_by planned left count }
{
    if planned != 0 {
        planned
    } else if EVENT_LETTERS < u32::from(left) + u32::from(count) {
        9
    } else {
        0
    }
}

// Where a letter leaves, the later ones close up from its place on, and the last place falls free. Where none does, none moves, and what is
// laid down again stands where it was.
#[derive(Debug, Clone, Copy, PartialEq, Eq)]
struct Gap {
    from: usize,
    free: usize,
}

fn gap_of(leaves: bool, place: usize, last: usize) -> Gap
    ensures from { result.from ≡ (if leaves then place else last) }
    ensures free { result.free ≡ (if leaves then last else place) }
{
    if leaves {
        Gap {
            from: place,
            free: last,
        }
    } else {
        Gap {
            from: last,
            free: place,
        }
    }
}

// What stands at the place that falls free: nothing, or where none does, the letter that is there.
fn freed(leaves: bool, x: Letter) -> Letter
    ensures { result ≡ (if leaves then no_letter else x) }
{
    if leaves { Letter::default() } else { x }
}

// What becomes of the list of letters: the number that says no (the plan's, or 9), how many letters are left once the event's own has left,
// from where the later ones close up, which place falls free and what stands there then.
#[derive(Debug, Clone, Copy, PartialEq, Eq)]
pub struct Room {
    pub answer: u8,
    pub left: u16,
    pub from: usize,
    pub free: usize,
    pub unused: Letter,
}

// Promise: equals `Parts.room_by`: the plan's number, or 9 where that is 0 and the letters would be too many; how many are left, from where
// they close up, and the place that falls free with what stands there, by definition.
pub fn room_of(
    kind: Kind,
    flying: u16,
    place: usize,
    planned: u8,
    count: u16,
    letter: Letter,
) -> Room
    ensures { result ≡ room_by kind flying place planned count letter }
{
    let leaves = takes_letter(kind);
    let left = left_of(leaves, flying);
    let answer = number_of(planned, left, count);
    let gap = gap_of(leaves, place, left as usize);
    let unused = freed(leaves, letter);
    Room {
        answer,
        left,
        from: gap.from,
        free: gap.free,
        unused,
    }
}
