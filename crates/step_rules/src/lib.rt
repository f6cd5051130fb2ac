// What one event does to a state, by definition: the network's step is held to it, and it is the world's step of what the state means
// (proofs/Bridge.antt). There is no function here.
#![tactic(auto)]

use state::State;
use tally::Tally;

// What a step answers: a number, what the event adds to the tally, and the state.
// To do (docs/DESIGN-PASS.md, 1): an error in place of the number; the state stays beside it, since a refusal hands it back
// (`Step.refusing`).
#[derive(Clone, Copy)]
pub struct Stepped {
    pub answer: u8,
    pub counts: Tally,
    pub state: State,
}
