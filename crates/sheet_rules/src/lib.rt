// The sheet rules, which every call that is given a network tests first. This crate stands above `reach`, so that a rule may
// say what reach says.
// An inner door: the calls are in docs/CALLS.md.
#![tactic(auto)]

ghost use Rattle.std.specs.Prelude.{◌≡◌, ◌≤◌};
ghost use Rattle.sheet_rules.specs.Values.{net_holds};
ghost use Rattle.sheet_rules.specs.Steps.{before_at, follows, place_test};

use net::{MOST_LINKS, MOST_STATIONS, Net};

// Whether a link with these ends is good and comes after the one before it, if there is one.
fn link_follows(stations: u8, before: Option<(u8, u8)>, low: u8, high: u8) -> bool
    ensures { result ≡ follows stations before low high }
{
    // Stays: it leaves at the first test that fails; as one `&&`, without jumps, `wire` took an eighth more time on letters
    if high <= low || stations <= high {
        return false;
    }
    match before {
        None => true,
        Some((a, b)) => a < low || (a == low && b < high),
    }
}

// The ends of the link before place k, if there is one.
fn link_before(net: &Net, k: usize) -> Option<(u8, u8)>
    requires { k ≤ 64 }
    ensures { result ≡ before_at net.now k }
{
    let i = k.checked_sub(1)?;
    Some((net.low[i], net.high[i]))
}

// Whether place k of the room is a good link, or unused and zero.
fn place_holds(links: u8, stations: u8, k: u8, before: Option<(u8, u8)>, low: u8, high: u8) -> bool
    ensures { result ≡ place_test links stations k before low high }
{
    if k < links {
        return link_follows(stations, before, low, high);
    }
    low == 0 && high == 0
}

// Whether a network keeps the sheet rules with its unused room zero. Where not, a call that is given it refuses with 11.
// Promise: equals `Values.net_holds`: 1 to 32 stations, at most 64 links, each with two stations as ends, lower first, strictly after the
// one before it, and the unused room zero.
pub fn keeps_sheet_rules(net: Net) -> bool
    ensures { result ≡ net_holds net }
{
    let n = net.stations;
    let m = net.links;
    if n < 1 || MOST_STATIONS < n || MOST_LINKS < m {
        return false;
    }
    for (k, low) in net.low.iter().enumerate() {
        if !place_holds(m, n, k as u8, link_before(&net, k), *low, net.high[k]) {
            return false;
        }
    }
    true
}
