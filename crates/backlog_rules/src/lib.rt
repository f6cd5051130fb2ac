// One call for many events, by definition: the calls of the step one by one (specs/Backlog.antt), and what holds of it (proofs/). There is
// no function here.
#![tactic(auto)]

use state::State;
use tally::Tally;

// What the call answers: 0, or the number of the event at which it stopped; how many events were taken before; the tally and the state
// after these.
// To do (docs/DESIGN-PASS.md, 1): an error in place of the number; the state stays beside it, since a refusal hands it back.
#[derive(Clone, Copy)]
pub struct Taken {
    pub answer: u8,
    pub taken: usize,
    pub tally: Tally,
    pub state: State,
}

// What the run that goes on after a refusal answers: 0, or 10 or 11 and nothing done; the tally and the state after all events.
// To do (docs/DESIGN-PASS.md, 1): an error in place of the number; the state stays beside it, since a refusal hands it back.
#[derive(Clone, Copy)]
pub struct Answered {
    pub answer: u8,
    pub tally: Tally,
    pub state: State,
}
