// One station: what it holds, which events there are, and the rules of every event and letter at it as definitions (specs/Acts.antt,
// specs/Events.antt). It knows the network's links and nothing of other stations. No function: conditions and kinds of event are told apart
// in station_kinds, and what an event comes to there, in words, is in station_plan.
#![tactic(auto)]

use counters::Counters;
use marks::Words;

// The first condition is what an unused place holds.
#[derive(Debug, Clone, Copy, PartialEq, Eq, Default)]
pub enum Condition {
    #[default]
    Down,
    Waiting,
    Live,
}

// Marks are words, bit k for link k.
#[derive(Debug, Clone, Copy, PartialEq, Eq, Default)]
pub struct Station {
    pub condition: Condition,
    pub counters: Counters,
    pub marks: Words,
}

// The eight kinds of event, and what is none of them.
#[derive(Debug, Clone, Copy, PartialEq, Eq)]
pub enum Kind {
    NoSuch,
    Start,
    Stop,
    Recovery,
    IntervalEnd,
    TimeoutEnd,
    QuietEnd,
    Delivery,
    Loss,
}

// What a letter that is heard does: a request is put off or answered; a reply heals, levels two even counters or finds them equal; a
// notice is taken.
#[derive(Debug, Clone, Copy, PartialEq, Eq)]
pub enum Effect {
    Defers,
    Answers,
    Heals(u16),
    Levels(u16),
    Equal,
    Takes(u8, u16),
}

// Stays: an enum taken apart by let .. else, as document 01 asks of this answer, and no Result: `Events.heard_rule` goes by its four cases.
// The receiver's answer to a letter: gone unheard, no effect, refused since a counter would be 65,536, or what it does.
#[derive(Debug, Clone, Copy, PartialEq, Eq)]
pub enum Heard {
    Gone,
    Nothing,
    Overflows,
    Does(Effect),
}

// ---- What a station sends, as a small description that the network expands: no list of letters is built before it is appended.
// What a station sends: a request on each link of the first word; a notice of each subject on each way, with the counter that the
// station's table has for it; and last a reply on one link.
#[derive(Debug, Clone, Copy, PartialEq, Eq, Default)]
pub struct Sending {
    pub requests: u64,
    pub subjects: u64,
    pub ways: u64,
    pub replies: bool,
    pub reply: u16,
    pub link: u8,
}
