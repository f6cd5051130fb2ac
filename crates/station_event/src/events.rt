// What an event comes to at the one station that it concerns, by its kind: the plan that station_plan defines. Events 1 to 6 are here, a
// letter's arrival is in lib.rt. An inner door: the call is the network's step.
ghost use Rattle.std.specs.Prelude.{◌≡◌, true, false};
ghost use Rattle.marks.specs.Marks.{marks_at, words_with};
ghost use Rattle.station.specs.declared.Kind.TheVariants.{Start, Stop, Recovery, IntervalEnd, TimeoutEnd, QuietEnd};
ghost use Rattle.station.specs.Holding.{is_down, is_waiting, set_quiet};
ghost use Rattle.station.specs.Acts.{all_own, may_end, interval_marks, interval_tests, test_ended, recovery_act};
ghost use Rattle.station_plan.specs.Plans.{links_word, marks_by, stays};
ghost use Rattle.station_plan.specs.Comes.{own_plan, event_plan, EventPlans};

use crate::Here;
use marks::{Marks, Words};
use net::Letter;
use station::{Condition, Kind, Sending};
use station_plan::Plan;

// ---- the marks after events 3 to 6, in words: what becomes of one link's, and of all links' where one changes

fn interval_marks(m: Marks) -> Marks
    ensures { result ≡ interval_marks m }
{
    if m.token {
        Marks {
            token: false,
            testing: true,
            ..m
        }
    } else if m.turn {
        Marks {
            turn: false,
            testing: true,
            ..m
        }
    } else {
        Marks { turn: true, ..m }
    }
}

fn tests_now(m: Marks) -> bool
    ensures { result ≡ interval_tests m }
{
    m.token || m.turn
}

fn test_ended(m: Marks) -> Marks
    ensures { result ≡ test_ended m }
{
    Marks {
        token: m.token || m.asked, // what was asked for comes now
        testing: false,
        asked: false,
        ..m
    }
}

// The marks of all links once a test on link k has ended.
fn ended_words(w: Words, k: u8) -> Words
    ensures { result ≡ words_with w k (test_ended (marks_at w k)) }
{
    let m = marks::marks_at(w, k);
    marks::with_marks(w, k, test_ended(m))
}

// The same, and the link is given up: nothing is sent or heard there until quiet ends.
fn failed_words(w: Words, k: u8) -> Words
    ensures { result ≡ words_with w k (set_quiet true (test_ended (marks_at w k))) }
{
    let silenced = Marks {
        quiet: true,
        ..test_ended(marks::marks_at(w, k))
    };
    marks::with_marks(w, k, silenced)
}

// Quiet ends on link k.
fn loud_words(w: Words, k: u8) -> Words
    ensures { result ≡ words_with w k (set_quiet false (marks_at w k)) }
{
    let loud = Marks {
        quiet: false,
        ..marks::marks_at(w, k)
    };
    marks::with_marks(w, k, loud)
}

// Event 4's marks for each own link at once: token off; turn off or on where there was no token; testing on where a test begins.
fn recovered_words(own: u64, w: Words) -> Words
    ensures { result ≡ marks_by own w recovery_act.marks }
{
    let flips = sets::without(own, w.token);
    let turn = sets::join(sets::without(w.turn, flips), sets::without(flips, w.turn));
    let testing = sets::join(w.testing, tests_on(own, w));
    Words {
        token: sets::without(w.token, own),
        turn,
        testing,
        ..w
    }
}

// The own links on which a test begins.
fn tests_on(own: u64, w: Words) -> u64
    ensures { result ≡ links_word own w (all_own interval_tests) }
{
    let neither = sets::without(sets::without(own, w.token), w.turn);
    sets::without(own, neither)
}

// ---- events 1 to 6, each by its number in document 01

// Whether an interval may end on a link with these marks.
fn may_end(condition: Condition, m: Marks) -> bool
    ensures { result ≡ may_end condition m }
{
    station_kinds::is_live(condition) && !m.testing && !m.quiet
}

// What the station's condition or the link's marks do not allow.
fn refused(here: Here) -> Plan
    ensures { result ≡ stays 7 0 0 here.condition here.marks }
{
    crate::staying(7, 0, 0, here.condition, here.marks)
}

// 1. Start.
#[tactic(auto, using(crate::proofs::Small::start_done), unfolding(station_plan::specs::Comes::event_plan, station::specs::Events::due_of))]
fn plan_start(here: Here) -> Plan
    ensures { result ≡ own_plan Start here.own 0 0 here.condition here.marks }
{
    if !station_kinds::is_down(here.condition) {
        return refused(here);
    }
    let token = Words {
        token: here.own,
        ..Words::default()
    };
    crate::turning(Condition::Waiting, token, 0, false)
}

// 2. Stop.
#[tactic(auto, using(crate::proofs::Small::stop_done), unfolding(station_plan::specs::Comes::event_plan, station::specs::Events::due_of))]
fn plan_stop(here: Here) -> Plan
    ensures { result ≡ own_plan Stop 0 0 0 here.condition here.marks }
{
    if station_kinds::is_down(here.condition) {
        return refused(here);
    }
    crate::turning(Condition::Down, Words::default(), 0, true)
}

// 3. The recovery wait ends.
#[tactic(auto, unfolding(station_plan::specs::Comes::event_plan, station::specs::Events::due_of))]
fn plan_recovery(here: Here) -> Plan
    ensures { result ≡ own_plan Recovery here.own 0 0 here.condition here.marks }
{
    if !station_kinds::is_waiting(here.condition) {
        return refused(here);
    }
    let requests = tests_on(here.own, here.marks);
    let after = recovered_words(here.own, here.marks);
    crate::turning(Condition::Live, after, requests, false)
}

// 4. An interval ends on the link.
#[tactic(auto, unfolding(station_plan::specs::Comes::event_plan, station::specs::Events::due_of))]
fn plan_interval(here: Here) -> Plan
    ensures { result ≡ own_plan IntervalEnd 0 here.link 0 here.condition here.marks }
{
    let m = marks::marks_at(here.marks, here.link);
    if !may_end(here.condition, m) {
        return refused(here);
    }
    let requests = sets::put(0, here.link, tests_now(m));
    let after = marks::with_marks(here.marks, here.link, interval_marks(m));
    crate::turning(here.condition, after, requests, false)
}

// 5. A timeout ends on the link. One that worked is raised, told of and kept quiet; what is out of reach then is purged.
#[tactic(auto, unfolding(station_plan::specs::Comes::event_plan, station::specs::Events::due_of))]
fn plan_timeout(here: Here) -> Plan
    ensures { result ≡ own_plan TimeoutEnd here.own here.link here.counter here.condition here.marks }
{
    if !sets::has(here.marks.testing, here.link) {
        return refused(here);
    }
    if !counters::is_even(here.counter) {
        let after = ended_words(here.marks, here.link);
        return crate::turning(here.condition, after, 0, false);
    }
    let loud = sets::without(here.own, here.marks.quiet);
    Plan {
        condition: here.condition,
        marks: failed_words(here.marks, here.link),
        sets: true,
        at: here.link,
        counter: counters::timed_out(here.counter),
        purges: true, // a link that failed may have cut others off
        sends: Sending {
            subjects: sets::put(0, here.link, true),
            ways: sets::put(loud, here.link, false), // every other own link
            ..Sending::default()
        },
        counts: crate::counted(0, 1),
        ..Plan::default()
    }
}

// 6. Quiet ends on the link.
#[tactic(auto, unfolding(station_plan::specs::Comes::event_plan, station::specs::Events::due_of))]
fn plan_quiet_end(here: Here) -> Plan
    ensures { result ≡ own_plan QuietEnd 0 here.link 0 here.condition here.marks }
{
    if !sets::has(here.marks.quiet, here.link) {
        return refused(here);
    }
    crate::turning(here.condition, loud_words(here.marks, here.link), 0, false)
}

// ---- any event

// What the event comes to at the station that is here. there: whether what it names is there.
// Promise: equals `Comes.event_plan` of the words given: 6 where what the event names is not there, 7, 8, or what is done; and at every
// station that has these words this is what the event comes to there, by document 01 (`Comes.EventPlans`: `due_of` of `rule_at`).
pub fn plan_event(there: bool, kind: Kind, letter: Letter, here: Here) -> Plan
    ensures { (result ≡ event_plan there kind here.own here.me here.link letter here.counter here.told here.condition here.marks)
        × EventPlans there kind here.own here.me here.link letter here.counter here.told here.condition here.marks result }
{
    if !there {
        return crate::staying(6, 0, 0, here.condition, here.marks);
    }
    match kind {
        Kind::NoSuch => crate::turning(here.condition, here.marks, 0, false),
        Kind::Start => plan_start(here),
        Kind::Stop => plan_stop(here),
        Kind::Recovery => plan_recovery(here),
        Kind::IntervalEnd => plan_interval(here),
        Kind::TimeoutEnd => plan_timeout(here),
        Kind::QuietEnd => plan_quiet_end(here),
        Kind::Delivery => crate::plan_letter(letter, here),
        Kind::Loss => crate::staying(0, crate::settled_by(letter), 1, here.condition, here.marks),
    }
}
