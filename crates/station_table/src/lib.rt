// What an event makes of a station's table, by its plan: the table that the notices tell, what of it is sent, and the table that the event
// leaves. Inner doors: the call is the network's step.
#![tactic(auto)]

ghost use Rattle.std.specs.Prelude.{◌≡◌, min, get_or, replicate, ltb};
ghost use Rattle.net.specs.Sizes.{link_room};
ghost use Rattle.station_plan.specs.Carrying.{told_by, narrowed, kept_by};
ghost use Rattle.station.specs.Values.{fresh_table};
ghost use Rattle.sets.specs.Sets.{word_by, up_to};

use counters::Counters;
use net::{LINK_ROOM, MOST_LINKS, Net};
use station::Sending;

// The table with the one counter set: what the notices tell.
// Promise: equals `Carrying.told_by`: the table with the one counter set, as the notices tell it.
pub fn told_table(sets: bool, at: u8, counter: u16, table: Counters) -> Counters
    ensures { result ≡ told_by sets at counter table }
{
    let mut next = table;
    if sets && at < MOST_LINKS {
        next[usize::from(at)] = counter;
    }
    next
}

// What is sent: where the plan says so, only what is known is told of.
// Promise: equals `Carrying.narrowed`: of the subjects only those that are known, where the plan says so.
pub fn narrow(knows: bool, links: u8, table: Counters, sends: Sending) -> Sending
    ensures { result ≡ narrowed knows (min links link_room) table sends }
{
    if !knows {
        return sends;
    }
    let known = known_links(links, table);
    let unknown = sets::without(sends.subjects, known);
    let subjects = sets::without(sends.subjects, unknown);
    Sending { subjects, ..sends }
}

// The table that the event leaves: every counter 1, or what is out of reach purged, or as it is told.
// Promise: equals `Carrying.kept_by`: every counter 1, or what is out of reach by this very table purged, or the table as it is.
pub fn kept_table(net: Net, me: u8, resets: bool, purges: bool, table: Counters) -> Counters
    ensures { result ≡ kept_by net me resets purges table }
{
    if resets {
        fresh_counters(net.links)
    } else if purges {
        let working = reach::working_links(net.links, table);
        reach::purged(net, working, table, me)
    } else {
        table
    }
}

// The links whose counter is above 1.
fn known_links(links: u8, counters: Counters) -> u64
    ensures { result ≡ word_by (up_to (λ j. ltb 1 (get_or counters j 0)) (min links link_room)) }
{
    let there = usize::from(links).min(LINK_ROOM);
    let mut known: u64 = 0;
    for (k, c) in counters[..there].iter().enumerate() {
        known = sets::put(known, k as u8, 1 < *c);
    }
    known
}

// The table of a station that knows of no link: every counter 1.
// Promise: equals `Values.fresh_table`: counter 1 for each link that is there, the unused room zero.
pub fn fresh_counters(links: u8) -> Counters
    ensures { result ≡ fresh_table (min links link_room) }
{
    let mut counters = [0; LINK_ROOM];
    counters[..usize::from(links).min(LINK_ROOM)].fill(1);
    counters
}
