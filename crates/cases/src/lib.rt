// What the programs of stored cases read: the network at the front of a case.
#![tactic(auto)]

ghost use Rattle.std.specs.Prelude.{◌≡◌, ◌<◌, length, drop, MatchOption};
ghost use Rattle.cases.specs.Cases.{case_net};

use net::{LINK_ROOM, Net};

// The network of 130 bytes, and the bytes after them: stations, links, 64 lower ends, 64 higher ends. None where there are fewer.
// Promise: equals `Cases.case_net` and the bytes after the 130, or none where there are fewer.
pub fn split_net(case: &[u8]) -> Option<(Net, &[u8])>
    ensures { MatchOption result (length case.now < 130) (λ p. (p.0 ≡ case_net case.now) × (p.1.now ≡ drop 130 case.now)) }
{
    let [stations, links, ends @ ..] = case else {
        return None;
    };
    let (low, ends) = ends.split_first_chunk::<LINK_ROOM>()?;
    let (high, rest) = ends.split_first_chunk::<LINK_ROOM>()?;
    let net = Net {
        stations: *stations,
        links: *links,
        low: *low,
        high: *high,
    };
    Some((net, rest))
}
