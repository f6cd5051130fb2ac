// A plan: what an event comes to at the one station that it concerns, in words. It holds no table and no station, and is made from the
// station's condition, its five words of marks, its own links and the counters concerned. Here is what a plan is, that it is station's
// act in words (specs/Plans), and the law that carrying it out is what the event comes to at every station that has these words
// (proofs/Laws); no function. The code that makes it: station_event; that carries it out: station_table, and the network's step.
#![tactic(auto)]

use marks::Words;
use station::{Condition, Sending};
use tally::Tally;

// A plan: the number that says no, or 0 and what becomes of the station, what it sends, and what is added to the tally.
#[derive(Debug, Clone, Copy, PartialEq, Eq, Default)]
pub struct Plan {
    pub answer: u8,
    pub condition: Condition,
    pub marks: Words,
    // every counter becomes 1
    pub resets: bool,
    // one counter is set
    pub sets: bool,
    pub at: u8,
    pub counter: u16,
    // what is out of reach then is purged, after all that is told is told
    pub purges: bool,
    // of the subjects only those are told of that are known: their counter is above 1
    pub knows: bool,
    pub sends: Sending,
    pub counts: Tally,
}
