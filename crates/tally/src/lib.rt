// The tally of settled notices, raised counters and dropped letters: one small record that the program lends to each call
// to be added to. A sum that would pass the largest value of 64 bits stays at it.
//
// A step settles at most one notice, drops at most one letter and raises at most one counter for each of the 64 links. What
// it counts is a tally all the same: nothing is asked of the caller, and the counts of a whole run of steps can be added at
// once (proofs/Sums.antt: it comes to the same).
// Inner doors: the calls are in docs/CALLS.md.
#![tactic(auto)]

ghost use Rattle.std.specs.Prelude.{◌≡◌};
ghost use Rattle.tally.specs.Sums.{tallied};

#[derive(Debug, Clone, Copy, PartialEq, Eq, Default)]
pub struct Tally {
    pub settled: u64,
    pub raised: u64,
    pub dropped: u64,
}

// The tally with one step's counts added, by value: what a loop of events keeps.
// Promise: each of the three counts is the old one plus that of the record n, and stays at its largest value once there (`Sums.tallied`).
pub fn added(t: Tally, n: Tally) -> Tally
    ensures { result ≡ tallied t n }
{
    Tally {
        settled: t.settled.saturating_add(n.settled),
        raised: t.raised.saturating_add(n.raised),
        dropped: t.dropped.saturating_add(n.dropped),
    }
}

// One step's counts are added to a tally that is lent.
// Promise: the same of the tally behind the reference, at exit.
pub fn add(t: &mut Tally, n: Tally)
    ensures { t.new ≡ tallied t.old n }
{
    *t = added(*t, n);
}
