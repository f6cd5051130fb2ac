// The network's step for a caller that keeps the tally: the tally is lent to the call and added to.
#![tactic(auto)]

ghost use Rattle.std.specs.Prelude.{◌≡◌};
ghost use Rattle.step_rules.specs.Step.{stepped_of};
ghost use Rattle.step_rules.specs.Counting.{tallied_by};

use state::State;
use step_rules::Stepped;
use tally::Tally;

// One event, and a tally that is lent to be added to. A refusal touches no tally: a step that says no counts nothing, and
// a count of 64 bits with zero more is the same count.
// Promise: the answer of `step`; the lent tally is added to if the event is accepted, and is as it was if it is refused.
pub fn step_counted(t: &mut Tally, s: State, kind: u32, a: u32, b: u32) -> Stepped
    ensures { (result ≡ stepped_of s kind a b) × (t.new ≡ tallied_by (stepped_of s kind a b) t.old) }
{
    // read for the proof alone: each of the lent counts has 64 bits
    let _settled = t.settled;
    let _raised = t.raised;
    let _dropped = t.dropped;
    let r = step::step(s, kind, a, b);
    tally::add(t, r.counts);
    r
}
