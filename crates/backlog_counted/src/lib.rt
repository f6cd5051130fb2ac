// The calls over many events for a caller that keeps the tally: the tally is lent to the call and added to.
#![tactic(auto)]

ghost use Rattle.std.specs.Prelude.{◌≡◌};
ghost use Rattle.fields.specs.Output.{writing_output};
ghost use Rattle.backlog_rules.specs.Answers.{tracing, answered_by};
ghost use Rattle.backlog_rules.specs.Backlog.{backlog_of};

use backlog_rules::{Answered, Taken};
use state::State;
use tally::Tally;

// One call for many events, and a tally that is lent to be added to. The list is lent to be read, and what stands in it stays.
// Promise: equals `Backlog.backlog_of`, and the lent tally is the one that the answer has.
pub fn backlog(t: &mut Tally, s: State, events: &[u32]) -> Taken
    ensures { (result ≡ backlog_of s t.old events.now)
        × (t.new ≡ (backlog_of s t.old events.now).tally) }
{
    let r = backlog_run::run_backlog(s, *t, events);
    *t = r.tally;
    r
}

// The run that goes on after a refused event: a tally that is lent to be added to, and a trace that is lent to be written.
// Promise: equals `Answers.answered_by`; the lent tally is the one that the answer has, and the trace is what `Answers.tracing` makes of it.
pub fn run(t: &mut Tally, s: State, events: &[u32], trace: &mut [u64]) -> Answered
    ensures { (result ≡ answered_by (tracing s t.old events.now trace.old) s t.old events.now)
        × (t.new ≡ (answered_by (tracing s t.old events.now trace.old)
        s t.old events.now).tally)
        × (trace.new ≡ writing_output (tracing s t.old events.now trace.old)
        trace.old) }
{
    let r = backlog_run::run_with_answers(s, *t, events, trace);
    *t = r.tally;
    r
}
