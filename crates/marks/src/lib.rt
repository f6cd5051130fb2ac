// The five marks of each link as five sets of links, and the links that a station is an end of as one such set.
// Inner doors: the calls are in docs/CALLS.md.
#![tactic(auto)]

ghost use Rattle.std.specs.Prelude.{◌≡◌};
ghost use Rattle.marks.specs.Marks.{marks_at, words_with, own_words};

use net::{MOST_LINKS, MOST_STATIONS, Net, STATION_ROOM};

// The marks of one link.
#[derive(Debug, Clone, Copy, PartialEq, Eq, Default)]
pub struct Marks {
    pub token: bool,
    pub turn: bool,
    pub testing: bool,
    pub asked: bool,
    pub quiet: bool,
}

// The marks of all links.
#[derive(Debug, Clone, Copy, PartialEq, Eq, Default)]
pub struct Words {
    pub token: u64,
    pub turn: u64,
    pub testing: u64,
    pub asked: u64,
    pub quiet: u64,
}

// The five marks of link k.
// Promise: equals `Marks.marks_at`: the five marks of link k.
pub fn marks_at(w: Words, k: u8) -> Marks
    ensures { result ≡ marks_at w k }
{
    Marks {
        token: sets::has(w.token, k),
        turn: sets::has(w.turn, k),
        testing: sets::has(w.testing, k),
        asked: sets::has(w.asked, k),
        quiet: sets::has(w.quiet, k),
    }
}

// The words with these marks for link k.
// Promise: equals `Marks.words_with`: these marks for link k, all others as before.
pub fn with_marks(w: Words, k: u8, m: Marks) -> Words
    ensures { result ≡ words_with w k m }
{
    Words {
        token: sets::put(w.token, k, m.token),
        turn: sets::put(w.turn, k, m.turn),
        testing: sets::put(w.testing, k, m.testing),
        asked: sets::put(w.asked, k, m.asked),
        quiet: sets::put(w.quiet, k, m.quiet),
    }
}

// The links that each station is an end of, found in one pass over the links: a call that looks at a whole state asks for many stations.
// Promise: equals `Marks.own_words`: at each place of the room of stations the links that this station is an end of.
pub fn own_words(net: Net) -> [u64; STATION_ROOM]
    ensures { result ≡ own_words net }
{
    let links = net.links.min(MOST_LINKS) as usize;
    let mut owns = [0u64; STATION_ROOM];
    for (k, low) in net.low[..links].iter().enumerate() {
        let link = 1u64 << k;
        let high = net.high[k];
        if *low < MOST_STATIONS {
            let at = *low as usize;
            owns[at] = sets::join(owns[at], link);
        }
        if high < MOST_STATIONS {
            let at = high as usize;
            owns[at] = sets::join(owns[at], link);
        }
    }
    owns
}
