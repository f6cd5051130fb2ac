// A station's condition and an event's kind, told apart: the tests that the rules of the crate station ask for.
// Inner doors: the calls are in docs/CALLS.md.
#![tactic(auto)]

ghost use Rattle.std.specs.Prelude.{◌≡◌};
ghost use Rattle.station.specs.Holding.{is_live, is_down, is_waiting};
ghost use Rattle.station.specs.Events.{kind_of};

use station::{Condition, Kind};

// Promise: equals `Holding.is_live`.
pub fn is_live(c: Condition) -> bool
    ensures { result ≡ is_live c }
{
    matches!(c, Condition::Live)
}

// Whether it is down: nothing but a start moves it.
// Promise: it is down.
pub fn is_down(c: Condition) -> bool
    ensures { result ≡ is_down c }
{
    matches!(c, Condition::Down)
}

// Whether it waits for its recovery.
// Promise: it is waiting.
pub fn is_waiting(c: Condition) -> bool
    ensures { result ≡ is_waiting c }
{
    matches!(c, Condition::Waiting)
}

// The kind of event that a number says: the only place where it is looked at.
// Stays: a public function that docs/ names; an `impl From<u32> for Kind`, which only the crate `station` could have, would say it twice.
// Promise: equals `Events.kind_of`: the kind of event that a number says, or none of them.
pub fn kind_of(n: u32) -> Kind
    ensures { result ≡ kind_of n }
{
    match n {
        1 => Kind::Start,
        2 => Kind::Stop,
        3 => Kind::Recovery,
        4 => Kind::IntervalEnd,
        5 => Kind::TimeoutEnd,
        6 => Kind::QuietEnd,
        7 => Kind::Delivery,
        8 => Kind::Loss,
        _ => Kind::NoSuch,
    }
}
