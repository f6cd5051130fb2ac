// One call for many events: the state is tested once and then changed in place, in parts (crate `run_rooms`). Only `take_events` changes
// them: between the first event and the last no helper takes or returns a state or the letters' room, and no event copies or tests one.
// That the test need not be repeated is the theorem that a step keeps well-formedness. What an event comes to is the plan in words of one
// station, as in the network's step, whose parts these are too (crate `step_parts`); a turn differs from the step where a copy of a table
// can be spared.
#![tactic(auto)]

ghost use Rattle.std.specs.Prelude.{◌≡◌, ◌&&◌, [], ◌∷◌, ◌*◌, ◌-◌, ltb, if◌then◌else◌};
ghost use Rattle.world.specs.World.{no_letter};
ghost use Rattle.fields.specs.Output.{writing_output};
ghost use Rattle.text.specs.Text.{put_at};
ghost use Rattle.step_rules.proofs.Bridge.{Good};
ghost use Rattle.run_rooms.specs.Rooms.{spare_room};
ghost use Rattle.backlog_rules.specs.Backlog.{backlog_of};
ghost use Rattle.backlog_rules.specs.Answers.{tracing, answered_by};
ghost use Rattle.backlog_run.specs.Events.{asking, asked_at, event_count, Went};

use backlog_rules::{Answered, Taken};
use net::{LINK_ROOM, Letter, MOST_LINKS};
use run_rooms::{Held, SPARE_ROOM};
use state::State;
use station::Kind;
use station_event::Here;
use tally::Tally;

// ---- the list of events

// The three numbers of an event; which kind the first says, and the place of the letter that the second may name.
#[derive(Debug, Clone, Copy, PartialEq, Eq)]
struct Asked {
    kind: u32,
    a: u32,
    b: u32,
    what: Kind,
    place: usize,
}

fn asking(kind: u32, a: u32, b: u32) -> Asked
    ensures { result ≡ asking kind a b }
{
    Asked {
        kind,
        a,
        b,
        what: station_kinds::kind_of(kind),
        place: step_parts::place_of(a),
    }
}

// One or two numbers left over at the end of the list are an event that names nothing: there is no kind 0.
#[tactic(auto, unfolding(crate::specs::Events::asked_at))]
fn event_at(events: &[u32], i: usize) -> Asked
    ensures { result ≡ asked_at events.now i }
{
    if events.len() / 3 <= i {
        return asking(0, 0, 0);
    }
    asking(events[3 * i], events[3 * i + 1], events[3 * i + 2])
}

// How many events so many numbers are.
#[tactic(auto, unfolding(crate::specs::Events::event_count))]
fn event_count(size: usize) -> usize
    ensures { result ≡ event_count size }
{
    size.div_ceil(3)
}

// What stands in the trace for event i: its answer, the letters in flight after it, the notices settled so far. A trace that has no room
// for it stays as it is, so that a caller who wants none lends an empty one.
#[tactic(auto, using(text::proofs::Puts::put_over, text::proofs::Chains::put_three))]
fn put_turn(trace: &mut [u64], i: usize, answer: u8, flying: u16, settled: u64)
    ensures { trace.new ≡ put_at (answer ∷ flying ∷ settled ∷ []) (3 * i) trace.old }
{
    if trace.len() / 3 <= i {
        return;
    }
    trace[3 * i..3 * i + 3].copy_from_slice(&[answer as u64, flying as u64, settled]);
}

// ---- the call

// The letter at a place of those in flight, where there is one; else that of an unused place.
fn in_flight(flies: bool, y: Letter) -> Letter
    ensures { result ≡ (if flies then y else no_letter) }
{
    if flies { y } else { Letter::default() }
}

// Whether the front of the letters in flight closes up where one leaves: it is the shorter side, and has room to move up to.
fn front_closes(place: usize, left: u16, start: usize) -> bool
    ensures { result ≡ (ltb start spare_room && ltb place (left - place)) }
{
    start < SPARE_ROOM && place < (left as usize).saturating_sub(place)
}

// The events of a state that is well formed. Between the first and the last of them the state is held in parts: what the stations hold
// beside their tables; the tables of all of them side by side, so that no event copies one; and the letters in flight anywhere in their
// room, so that where one leaves, the shorter side closes up. It stops at the first refused event, or goes on.
// Stays: a closure in place of `stops` is no plainer: it would answer that same flag, once for each refused event.
fn take_events(s: State, t: Tally, events: &[u32], stops: bool, trace: &mut [u64]) -> Taken
    requires { Good s }
    ensures { Went stops s t events.now trace.old result trace.new }
{
    let net = s.net;
    let owns = marks::own_words(net); // the same for every event, so they are found once
    let mut held = run_rooms::held_of(s.stations);
    let mut tables = run_rooms::tables_of(s.stations);
    let mut room = run_rooms::moving_room(s.letters);
    let mut start: usize = 0;
    let mut flying = s.flying;
    let mut tally = t;
    let n = event_count(events.len());
    // To do (docs/DESIGN-PASS.md, 6): `events.chunks(3).enumerate()` with a slice pattern in place of `event_at`.
    for taken in 0..n {
        // what the event names
        let e = event_at(events, taken);
        let what = e.what;
        let place = e.place;
        let at = start + place;
        let x = in_flight(place < flying as usize, room[at]);
        let names = step_parts::names_of(net, flying, what, e.a, e.b, x);
        let me = names.station;
        // what it comes to at the station that it concerns
        let who = me as usize;
        let first = LINK_ROOM * who;
        let on = first + names.link as usize;
        let of = first + names.subject as usize;
        let h = held[who];
        let plan = station_event::events::plan_event(
            names.there,
            what,
            x,
            Here {
                own: owns[who],
                me,
                link: names.link,
                counter: tables[on],
                told: tables[of],
                condition: h.condition,
                marks: h.marks,
            },
        );
        // what is sent; a table is copied only where it is looked through
        let mut send = plan.sends;
        if plan.knows {
            let table = run_rooms::table_at(&tables, me);
            let told = station_table::told_table(plan.sets, plan.at, plan.counter, table);
            send = station_table::narrow(plan.knows, net.links, told, send);
        }
        let count = post::count(send);
        let fate = step_parts::room_of(what, flying, place, plan.answer, count, x);
        if fate.answer != 0 {
            // it changes nothing, and the numbers stand as they stood
            put_turn(trace, taken, fate.answer, flying, tally.settled);
            if stops {
                let after = run_rooms::stations_of(held, &tables);
                let flown = run_rooms::gathered(room, start, flying);
                return Taken {
                    answer: fate.answer,
                    taken, // the refused one is not among them
                    tally,
                    state: State {
                        net,
                        flying,
                        stations: after,
                        letters: flown,
                    },
                };
            }
            continue;
        }
        // nothing refuses it: from here on the parts are changed
        if plan.sets && plan.at < MOST_LINKS {
            let set = first + plan.at as usize;
            tables[set] = plan.counter;
        }
        let left = fate.left as usize;
        if fate.left < flying {
            // a letter leaves, and the shorter side closes up
            if front_closes(place, fate.left, start) {
                room.copy_within(start..at, start + 1);
                start += 1;
            } else {
                room.copy_within(at + 1..start + flying as usize, at);
            }
        }
        // new letters go to the end
        let behind = start + left;
        let mut post = post::begun(send);
        for z in room[behind..behind + count as usize].iter_mut() {
            let subject = first + post::subject(post) as usize;
            *z = post::first(post, me, tables[subject]);
            post = post::rest(post);
        }
        flying = fate.left + count;
        // the table is purged last, since what is told is told as it was before
        if plan.resets || plan.purges {
            let table = run_rooms::table_at(&tables, me);
            let kept = station_table::kept_table(net, me, plan.resets, plan.purges, table);
            run_rooms::put_table(&mut tables, me, kept);
        }
        held[who] = Held {
            condition: plan.condition,
            marks: plan.marks,
        };
        tally = tally::added(tally, plan.counts);
        put_turn(trace, taken, 0, flying, tally.settled);
    }
    let after = run_rooms::stations_of(held, &tables);
    let flown = run_rooms::gathered(room, start, flying);
    Taken {
        answer: 0,
        taken: n,
        tally,
        state: State {
            net,
            flying,
            stations: after,
            letters: flown,
        },
    }
}

// Many events, three numbers each, and a tally by value. It stops at the first refused event; a bad state is 11, even for an empty list.
// Promise: equals `Backlog.backlog_of`: the steps one by one, up to the first that is refused; the state and the tally after those taken,
// how many, and 0 or the number that says no.
pub fn run_backlog(s: State, t: Tally, events: &[u32]) -> Taken
    ensures { result ≡ backlog_of s t events.now }
{
    if !state::well_formed(s) {
        return Taken {
            answer: 11, // nothing is taken
            taken: 0,
            tally: t,
            state: s,
        };
    }
    take_events(s, t, events, true, &mut [])
}

// Many events, three numbers each, and a tally by value. A refused event changes nothing, and it goes on. A bad state is 11; a trace that
// has fewer than three places for an event is 10, and nothing is done.
// Promise: equals `Answers.answered_by`: the steps one by one; the state and the tally after them, and in the trace for each event its
// answer, the letters in flight after it and the notices settled so far.
pub fn run_with_answers(s: State, t: Tally, events: &[u32], trace: &mut [u64]) -> Answered
    ensures { (result ≡ answered_by (tracing s t events.now trace.old) s t events.now)
        × (trace.new ≡ writing_output (tracing s t events.now trace.old) trace.old) }
{
    if !state::well_formed(s) {
        return Answered {
            answer: 11, // nothing is done
            tally: t,
            state: s,
        };
    }
    if trace.len() / 3 < event_count(events.len()) {
        return Answered {
            answer: 10,
            tally: t, // as it was given
            state: s,
        };
    }
    let done = take_events(s, t, events, false, trace);
    Answered {
        answer: 0,
        tally: done.tally,
        state: done.state,
    }
}
