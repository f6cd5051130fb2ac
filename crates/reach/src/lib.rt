// Who reaches whom over the links that work, which of them work by a station's counters, and the laws of it. Every input is answered;
// what a bad network or a station that is not there gives is said in specs/Values.antt.
// Inner doors: the calls are in docs/CALLS.md.
#![tactic(auto)]

ghost use Rattle.std.specs.Prelude.{◌≡◌, ◌+◌, ◌<◌, ◌^◌, ◌||◌};
ghost use Rattle.lists.specs.Words.{bit_at, in_word, word_of};
ghost use Rattle.reach.specs.Values.{reach_of, working_of, purged_of};
ghost use Rattle.reach.specs.Steps.{crosses, Apart};
ghost use Rattle.reach.specs.PurgingSteps.{purged_to};
ghost use Rattle.reach.specs.Reach.{link_value};
ghost use Rattle.reach.specs.ShowingValues.{reached_of, ones_of, lowest_missing};

use counters::Counters;
use net::{MOST_LINKS, MOST_STATIONS, Net};

// The word with bit t, which it hasn't yet.
fn with_bit(w: u32, t: u8) -> u32
    requires { (t < 32) × (bit_at w t ≡ 0) }
    ensures { result ≡ w + 2 ^ t }
{
    w + (1u32 << t)
}

// Whether a link with the ends a and b works and joins a reached station to an unreached one.
fn joins(n: u8, a: u8, b: u8, works: bool, w: u32) -> bool
    ensures { result ≡ crosses n a b works w }
{
    works && a < n && b < n && sets::bit_of(w, a) != sets::bit_of(w, b)
}

// The word with the one of two ends that it lacks.
fn grown(a: u8, b: u8, w: u32) -> u32
    requires { (a < 32) × (b < 32) × (bit_at w a ≡ bit_at w b → ⊥) }
    ensures { Apart a b w result }
{
    if sets::bit_of(w, a) == 0 {
        with_bit(w, a)
    } else {
        with_bit(w, b)
    }
}

// The links that are there and work by the counters, as a word: bit k for link k.
// Promise: equals `Values.working_of`: bit k exactly for the links that are there and whose counter is even.
pub fn working_links(links: u8, counters: Counters) -> u64
    ensures { result ≡ working_of links counters }
{
    let m = links.min(MOST_LINKS) as usize;
    let mut working: u64 = 0;
    for (k, counter) in counters[..m].iter().enumerate() {
        working = sets::put(working, k as u8, counters::is_even(*counter));
    }
    working
}

// The stations that s reaches over the working links, as a word: from s on, take the first link, by number, that joins a
// reached station to an unreached one and works, until none is left. A station that is not there reaches nothing.
// Promise: equals the word of `Values.reach_of`: bit t exactly for the stations that s reaches over the working links.
pub fn reach_word(net: Net, working: u64, s: u8) -> u32
    ensures { result ≡ word_of (reach_of net (in_word working) s) }
{
    let n = net.stations.min(MOST_STATIONS);
    let m = net.links.min(MOST_LINKS);
    if n <= s {
        return 0;
    }
    let start = with_bit(0, s);
    let mut w = start;
    'grow: loop {
        // Stays: document 01 gives the search as a nested loop over the number of a link, left by its label.
        let mut k: u8 = 0;
        let found: u8 = 'search: loop {
            if m <= k {
                break 'grow;
            }
            let i = k as usize;
            if joins(n, net.low[i], net.high[i], sets::has(working, k), w) {
                break 'search k;
            }
            k += 1;
        };
        let j = found as usize;
        w = grown(net.low[j], net.high[j], w);
    }
    w
}

// ---- Purge: what a station forgets of links that it doesn't reach. Every public function answers every input;
// what a bad network or a station that is not there gives is said in reach/specs/Values.antt.

// A link's counter after a purge: kept if the word has an end of it.
fn purge_one(a: u8, b: u8, counter: u16, w: u32) -> u16
    ensures { result ≡ purged_to a b counter w }
{
    if sets::has_end(a, b, w) { counter } else { 1 }
}

// The counters after a purge at s: 1 for each link neither of whose ends s reaches over the working links.
// Promise: equals `reach.Values.purged_of`: counter 1 for every link neither of whose ends s reaches over the working links, all else as it
// was.
pub fn purged(net: Net, working: u64, counters: Counters, s: u8) -> Counters
    ensures { result ≡ purged_of net (in_word working) counters s }
{
    let links = net.links.min(MOST_LINKS) as usize;
    let w = reach_word(net, working, s);
    let mut next = counters;
    for (k, counter) in next[..links].iter_mut().enumerate() {
        *counter = purge_one(net.low[k], net.high[k], *counter, w);
    }
    next
}

// ---- What is shown of a reach: the word's two numbers, and how the report shows a link. Every public function answers every
// input; what a bad network or a station that is not there gives is said in reach/specs/Values.antt.

// A reach: bit t of the word for station t, how many bits are set, and the lowest station not reached or 255.
// Stays: 255 for none, since document 01 and the definition `Reach.lowest_of` have that number.
#[derive(Debug, Clone, Copy, PartialEq, Eq, Default)]
pub struct Reached {
    pub word: u32,
    pub ones: u8,
    pub lowest: u8,
}

// How many bits of the word are set.
fn count_ones(word: u32) -> u8
    ensures { result ≡ ones_of word }
{
    word.count_ones() as u8
}

// The lowest station that the word lacks, or 255.
fn lowest_missing(word: u32, stations: u8) -> u8
    ensures { result ≡ lowest_missing word stations }
{
    let n = stations.min(MOST_STATIONS);
    let z = (!word).trailing_zeros();
    if z < u32::from(n) { z as u8 } else { 255 }
}

// The reach word with its two numbers.
// Promise: equals `Values.reached_of`: word, ones and lowest of one and the same reach.
pub fn reach_of(net: Net, working: u64, s: u8) -> Reached
    ensures { result ≡ reached_of net (in_word working) s }
{
    let word = reach_word(net, working, s);
    let ones = count_ones(word);
    let lowest = lowest_missing(word, net.stations);
    Reached { word, ones, lowest }
}

// How the report shows a link with the ends low and high, which works or not, to the station whose reach word this is.
// Stays: a number, since the definition `Reach.link_value` gives it and the report is a list of such numbers.
// Promise: equals `reach.Reach.link_value`: 0 neither end reached, 1 working, 2 not.
pub fn link_shown(low: u8, high: u8, works: bool, word: u32) -> u8
    ensures { result ≡ link_value (in_word word low || in_word word high) works }
{
    if !sets::has_end(low, high, word) {
        return 0;
    }
    if works { 1 } else { 2 }
}
