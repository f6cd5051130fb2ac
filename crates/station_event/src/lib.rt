// The code that makes the plan of an event at the one station that it concerns. Here is a letter's arrival: the receiver's answer to it,
// and the plan by that answer; and the two forms that most plans have. The plan of any event, by its kind: events.rt. An inner door:
// the call is the network's step.
#![tactic(auto)]

pub mod events;

ghost use Rattle.std.specs.Prelude.{◌≡◌, true, ◌&&◌, ltb, if◌then◌else◌};
ghost use Rattle.lists.specs.Words.{bit};
ghost use Rattle.marks.specs.Marks.{marks_at, words_with};
ghost use Rattle.station.specs.declared.Effect.TheVariants.{Defers, Answers, Heals, Levels, Takes};
ghost use Rattle.station.specs.declared.Kind.TheVariants.{Delivery};
ghost use Rattle.station.specs.Holding.{set_asked};
ghost use Rattle.station.specs.Acts.{requested_marks, replied_marks, effect_act, replied_by, hears, body_answer};
ghost use Rattle.station.specs.Events.{counting, is_notice, raised_effect};
ghost use Rattle.station_plan.specs.Plans.{done_plan, drop_plan, stays, turns, tells};
ghost use Rattle.station_plan.specs.Comes.{event_plan};
ghost use Rattle.counters.specs.Counters.{healing};
ghost use Rattle.station.specs.declared.Heard.TheVariants.{Gone, Does};

use marks::{Marks, Words};
use net::{Body, Letter};
use station::{Condition, Effect, Heard, Sending};
use station_plan::Plan;
use tally::Tally;

// What the plan of an event is made from: the station, by its links and its number; the link that the event is about, with its counter;
// the counter of the link that the letter tells of; and the station's condition and marks.
#[derive(Debug, Clone, Copy, PartialEq, Eq, Default)]
pub struct Here {
    pub own: u64,
    pub me: u8,
    pub link: u8,
    pub counter: u16,
    pub told: u16,
    pub condition: Condition,
    pub marks: Words,
}

// ---- the two forms that most plans have

// The condition and the marks change, and requests are sent.
fn turning(condition: Condition, marks: Words, requests: u64, resets: bool) -> Plan
    ensures { result ≡ turns condition marks requests resets }
{
    Plan {
        condition,
        marks,
        resets,
        sends: Sending {
            requests,
            ..Sending::default()
        },
        ..Plan::default()
    }
}

// Nothing changes and nothing is sent: refused, or a letter is gone.
fn staying(number: u8, settled: u64, dropped: u64, condition: Condition, marks: Words) -> Plan
    ensures { result ≡ stays number settled dropped condition marks }
{
    Plan {
        answer: number,
        condition,
        marks,
        sends: Sending::default(), // silence
        counts: Tally {
            settled,
            dropped,
            ..Tally::default()
        },
        ..Plan::default()
    }
}

// ---- the receiver's answer to a letter: whether it is heard, and what it then does

// What a reply with c does to a test whose own counter is this.
fn reply_heard(own: u16, c: u16) -> Heard
    ensures { result ≡ replied_by own c (healing own c) }
{
    let Some(to) = counters::heal(own, c) else {
        return Heard::Overflows;
    };
    if !counters::is_even(own) || !counters::is_even(c) {
        Heard::Does(Effect::Heals(to))
    } else if own == c {
        Heard::Does(Effect::Equal)
    } else {
        Heard::Does(Effect::Levels(to))
    }
}

// Whether a request is put off: the higher-numbered of two testers only marks it.
fn request_heard(testing: bool, sender: u16, me: u8) -> Heard
    ensures { result ≡ (if testing && ltb sender me then Does Defers else Does Answers) }
{
    if testing && sender < u16::from(me) {
        Heard::Does(Effect::Defers)
    } else {
        Heard::Does(Effect::Answers)
    }
}

// The receiver's answer to a letter on the link.
fn hearing(sender: u16, body: Body, here: Here) -> Heard
    ensures { result ≡ (if hears here.condition (marks_at here.marks here.link)
        then body_answer here.me sender (marks_at here.marks here.link) here.counter here.told body else Gone) }
{
    if !station_kinds::is_live(here.condition) || sets::has(here.marks.quiet, here.link) {
        return Heard::Gone;
    }
    let testing = sets::has(here.marks.testing, here.link);
    match body {
        Body::Request => request_heard(testing, sender, here.me),
        Body::Reply(carried) if testing => reply_heard(here.counter, carried),
        Body::Notice(j, carried) if counters::is_newer(here.told, carried) => {
            Heard::Does(Effect::Takes(j, carried))
        }
        Body::Reply(_) | Body::Notice(_, _) => Heard::Nothing,
    }
}

// ---- the plan of a letter that arrives, by that answer

// A notice that is taken off is settled.
fn settled_by(letter: Letter) -> u64
    ensures { result ≡ bit (is_notice letter.body) }
{
    u64::from(matches!(letter.body, Body::Notice(_, _)))
}

// What a letter that is heard adds to the tally.
fn counted(settled: u64, raised: u64) -> Tally
    ensures { result ≡ counting settled raised 0 }
{
    Tally {
        settled,
        raised,
        ..Tally::default() // none is dropped
    }
}

// A request that is put off: the token comes when the test ends.
fn asked_words(w: Words, k: u8) -> Words
    ensures { result ≡ words_with w k (set_asked true (marks_at w k)) }
{
    let asked = Marks {
        asked: true,
        ..marks::marks_at(w, k)
    };
    marks::with_marks(w, k, asked)
}

// A request that is answered: testing and asked off, token on, turn off.
fn requested_words(w: Words, k: u8) -> Words
    ensures { result ≡ words_with w k (requested_marks (marks_at w k)) }
{
    let rested = Marks {
        token: true,
        turn: false, // or the next silent interval would test too early
        testing: false,
        asked: false,
        ..marks::marks_at(w, k)
    };
    marks::with_marks(w, k, rested)
}

// A reply to a test on link k: testing and asked off.
fn replied_words(w: Words, k: u8) -> Words
    ensures { result ≡ words_with w k (replied_marks (marks_at w k)) }
{
    let ended = Marks {
        testing: false, // the test is over
        asked: false,
        ..marks::marks_at(w, k)
    };
    marks::with_marks(w, k, ended)
}

// A request is answered: over a link that was down all that is known is told, but of the link itself; last comes the reply.
fn plan_answer(settled: u64, here: Here) -> Plan
    ensures { result ≡ done_plan 0 here.marks (effect_act here.condition here.link here.counter Answers) (counting settled 0 0) }
{
    let after = requested_words(here.marks, here.link); // named once: to name it twice computes it twice
    let down = !counters::is_even(here.counter);
    let others = sets::put(u64::MAX, here.link, false);
    Plan {
        condition: here.condition,
        marks: after,
        knows: down,
        sends: Sending {
            requests: 0,
            subjects: if down { others } else { 0 },
            ways: sets::put(0, here.link, true),
            replies: true,
            reply: here.counter,
            link: here.link,
        },
        counts: counted(settled, 0),
        ..turning(here.condition, after, 0, false)
    }
}

// A reply to a test. It heals if one of the two counters was odd: everything that is known is told, and what is out of reach then is
// purged. Else it levels two even ones: this link alone is told.
fn plan_reply(settled: u64, raised: u64, to: u16, heals: bool, here: Here) -> Plan
    ensures { result ≡ done_plan here.own here.marks (effect_act here.condition here.link 0 (if heals then Heals to else Levels to))
        (counting settled raised 0) }
{
    let alone = sets::put(0, here.link, true);
    Plan {
        condition: here.condition,
        marks: replied_words(here.marks, here.link),
        sets: true,
        at: here.link,
        counter: to,
        purges: heals,
        knows: heals,
        sends: Sending {
            subjects: if heals { u64::MAX } else { alone },
            ways: sets::without(here.own, here.marks.quiet),
            ..Sending::default()
        },
        counts: counted(settled, raised),
        ..Plan::default()
    }
}

// A newer notice: taken, and sent on wherever it did not come from.
fn plan_take(settled: u64, j: u8, to: u16, here: Here) -> Plan
    ensures { result ≡ done_plan here.own here.marks (effect_act here.condition here.link 0 (Takes j to)) (counting settled 1 0) }
{
    let loud = sets::without(here.own, here.marks.quiet);
    Plan {
        condition: here.condition,
        marks: here.marks,
        sets: true,
        at: j,
        counter: to,
        purges: false, // or one notice could circle a ring for ever
        sends: Sending {
            subjects: sets::put(0, j, true),
            ways: sets::put(loud, here.link, false), // not back
            ..Sending::default()
        },
        counts: counted(settled, 1),
        ..Plan::default()
    }
}

// What a letter that is heard comes to, by what it does.
fn plan_effect(effect: Effect, settled: u64, here: Here) -> Plan
    ensures { result ≡ done_plan here.own here.marks (effect_act here.condition here.link here.counter effect)
        (counting settled (raised_effect here.counter effect) 0) }
{
    match effect {
        Effect::Defers => staying(
            0,
            settled,
            0,
            here.condition,
            asked_words(here.marks, here.link),
        ),
        Effect::Answers => plan_answer(settled, here),
        Effect::Heals(to) => plan_reply(settled, u64::from(here.counter < to), to, true, here),
        Effect::Levels(to) => plan_reply(settled, u64::from(here.counter < to), to, false, here),
        Effect::Equal => staying(
            0,
            settled,
            0,
            here.condition,
            replied_words(here.marks, here.link),
        ),
        Effect::Takes(j, to) => plan_take(settled, j, to, here),
    }
}

// What becomes of a letter that does nothing: refused, dropped, or without effect.
#[tactic(auto, unfolding(station_plan::specs::Plans::drop_plan))]
fn plan_drop(said: Heard, settled: u64, condition: Condition, marks: Words) -> Plan
    ensures { result ≡ drop_plan said settled condition marks }
{
    match said {
        Heard::Gone => staying(0, settled, 1, condition, marks),
        Heard::Overflows => staying(8, 0, 0, condition, marks),
        Heard::Nothing | Heard::Does(_) => staying(0, settled, 0, condition, marks),
    }
}

// 7. A letter arrives on the link.
fn plan_letter(letter: Letter, here: Here) -> Plan
    ensures { result ≡ event_plan true Delivery here.own here.me here.link letter here.counter here.told here.condition here.marks }
{
    let said = hearing(letter.sender, letter.body, here);
    let settled = settled_by(letter);
    let Heard::Does(effect) = said else {
        return plan_drop(said, settled, here.condition, here.marks);
    };
    plan_effect(effect, settled, here)
}
