// The network's step: one call takes the whole state and one event, and hands back the whole state after it, or the same
// state and the number that says no. Only `step` holds a state: nothing that it calls takes or returns one, nor the letters' room, so
// that it is copied once in and once out. The station that the event concerns is copied once out of the state and stored once into it.
// What the event names, the plan at that station and what becomes of the list of letters are `step_parts`; the parts of the test for 11
// are `state` and `state_rules`.
#![tactic(auto)]

ghost use Rattle.std.specs.Prelude.{◌≡◌, if◌then◌else◌};
ghost use Rattle.step_rules.specs.Step.{stepped_of};

use net::{MOST_LETTERS, STATION_ROOM};
use state::State;
use station::Station;
use step_rules::Stepped;
use tally::Tally;

// The number that says no: 11 of a bad state, whatever else there is.
fn answer_by(good: bool, answer: u8) -> u8
    ensures { result ≡ (if good then answer else 11) }
{
    if good { answer } else { 11 }
}

// One event. Refusals in their order: 11, 6, 7, 8, 9; each hands back the state it was given.
// Promise: equals `Step.stepped_of`: 11, then the world's refusal 6, 7, 8 or 9 with exactly the state given and nothing counted; else 0,
// the world after the event laid out in zero room, and the notices settled, counters raised and letters dropped by the event.
pub fn step(mut s: State, kind: u32, a: u32, b: u32) -> Stepped
    ensures { result ≡ stepped_of s kind a b }
{
    let net = s.net;
    let flying = s.flying;
    let owns = marks::own_words(net);
    // To do (docs/DESIGN-PASS.md, 7): the test for 11 by a call that is lent the state; by value the call cost 0.6 µs of 3.8
    // (docs/DECISIONS.md)
    let framed = state::frame_holds(net, flying);
    let mut placed = true;
    let n = net.stations as usize;
    for (t, st) in s.stations.iter().enumerate() {
        placed &= state::station_place(net.links, t < n, owns[t], *st);
    }
    let used = state::used_places(flying);
    let mut ways: u64 = 0;
    let mut ended: u64 = 1;
    let mut most: u16 = 0;
    let mut least: u16 = 1;
    for x in s.letters[..used as usize].iter() {
        let k = x.sender as usize % STATION_ROOM;
        ways = state_rules::joined_ways(ways, x.link, x.sender);
        ended = state_rules::still_ended(ended, owns[k], x.link);
        most = state_rules::larger(most, state_rules::past_subject(x.body));
        least = state_rules::smaller(least, state_rules::counter_said(x.body));
    }
    // the places beyond them, from two starts at once: each joining waits for the one before it (as in `state::well_formed`)
    let half = (MOST_LETTERS - used + 1) / 2;
    let first = used as usize;
    let second = (MOST_LETTERS - half) as usize;
    let mut rest: u64 = 0;
    for j in 0..half {
        let at = first + j as usize;
        let to = second + j as usize;
        let x = s.letters[at];
        let y = s.letters[to];
        rest |= state::word_of(x) | state::word_of(y);
    }
    let carried = state_rules::letters_formed(net.links, ways, ended, most, least);
    let good = state::all_hold(framed, placed, carried, rest);
    // what the event names
    let what = station_kinds::kind_of(kind);
    let place = step_parts::place_of(a);
    let x = s.letters[place];
    let names = step_parts::names_of(net, flying, what, a, b, x);
    let me = names.station;
    // what it comes to at the station that it concerns
    let who = me as usize;
    let st = s.stations[who];
    let plan = step_parts::plan_at(names, what, owns[who], x, st);
    let table = st.counters;
    let told = station_table::told_table(plan.sets, plan.at, plan.counter, table);
    let sends = plan.sends;
    let send = station_table::narrow(plan.knows, net.links, told, sends);
    let count = post::count(send);
    let room = step_parts::room_of(what, flying, place, plan.answer, count, x);
    let answer = answer_by(good, room.answer);
    let mut counts = Tally::default();
    // there is one return: with several the state would be copied once more
    if answer == 0 {
        // from here on the step changes its own copy of the state, in place; what is told is told as it was before the purge
        let kept = station_table::kept_table(net, me, plan.resets, plan.purges, told);
        s.stations[who] = Station {
            condition: plan.condition,
            counters: kept,
            marks: plan.marks,
        };
        // the later letters close up
        // Stays: `copy_within` needs a test beside it: where no letter leaves, the place after the last may lie past the room
        let last = room.left as usize;
        for i in room.from..last {
            s.letters[i] = s.letters[i + 1];
        }
        s.letters[room.free] = room.unused;
        // new letters go to the end
        let mut post = post::begun(send);
        for slot in s.letters[last..last + count as usize].iter_mut() {
            let subject = post::subject(post) as usize;
            *slot = post::first(post, me, told[subject]);
            post = post::rest(post);
        }
        s.flying = room.left + count;
        counts = plan.counts;
    }
    Stepped {
        answer,
        counts,
        state: s,
    }
}
