// A link's counter, and the rules for it that stand alone. Every public function answers every number.
// Inner doors: the calls are in docs/CALLS.md.
#![tactic(auto)]

ghost use Rattle.std.specs.Prelude.{◌≡◌};
ghost use Rattle.counters.specs.Counters.{even, timed_out, healing, newer};

use net::LINK_ROOM;

// A station's table: the counter of link k at place k.
pub type Counters = [u16; LINK_ROOM];

// Working, or unresponsive.
// Promise: equals `Counters.even`: the link works.
pub fn is_even(counter: u16) -> bool
    ensures { result ≡ even counter }
{
    counter % 2 == 0
}

// The counter after a timeout: raised if the link worked till now.
// Promise: equals `Counters.timed_out`: an even counter is raised by 1, an odd one stays.
pub fn timed_out(own: u16) -> u16
    ensures { result ≡ timed_out own }
{
    if is_even(own) { own + 1 } else { own }
}

// The counter after a reply: even again, and never below the larger of the two.
// Promise: equals `Counters.healing`: the larger of the two, or one more if that is odd; none where that is 65,536.
#[tactic(auto, unfolding(crate::specs::Counters::healing, crate::specs::Counters::healed))]
pub fn heal(own: u16, carried: u16) -> Option<u16>
    ensures { result ≡ healing own carried }
{
    let larger = own.max(carried);
    larger.checked_add(larger % 2)
}

// Whether a notice is taken: an equal one must not be, or it would circle for ever.
// Promise: equals `Counters.newer`: strictly above.
pub fn is_newer(own: u16, carried: u16) -> bool
    ensures { result ≡ newer own carried }
{
    own < carried
}
