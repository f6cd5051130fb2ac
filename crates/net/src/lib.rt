// The network and the letters that travel in it, as values, and what a letter may say.
// An inner door: the calls are in docs/CALLS.md.
#![tactic(auto)]

ghost use Rattle.std.specs.Prelude.{◌≡◌, ◌||◌, eqb};
ghost use Rattle.net.specs.Values.{body_test};

// The sizes of document 01, once; specs/Sizes.antt has them for definitions and proofs. First as lengths of arrays.
pub const STATION_ROOM: usize = 32;

pub const LINK_ROOM: usize = 64;

pub const LETTER_ROOM: usize = 4096;

// The same as numbers to compare with, and the largest counter.
pub const MOST_STATIONS: u8 = STATION_ROOM as u8;

pub const MOST_LINKS: u8 = LINK_ROOM as u8;

pub const MOST_LETTERS: u16 = LETTER_ROOM as u16;

pub const LARGEST_COUNTER: u16 = u16::MAX;

// Link k has the ends low[k] and high[k]; unused room is zero.
// To do (docs/DESIGN-PASS.md, 3): one array of ends; `Values.network_of`, `place_ends` and the rules of sheets are
// definitions over these two.
#[derive(Debug, Clone, Copy, PartialEq, Eq)]
pub struct Net {
    pub stations: u8,
    pub links: u8,
    pub low: [u8; LINK_ROOM],
    pub high: [u8; LINK_ROOM],
}

// What a letter says. The first variant is what an unused place holds.
#[derive(Debug, Clone, Copy, PartialEq, Eq, Default)]
pub enum Body {
    #[default]
    Request,
    // with a counter
    Reply(u16),
    // with a subject link and its counter
    Notice(u8, u16),
}

// A letter, with the link that it travels on and its sender.
#[derive(Debug, Clone, Copy, PartialEq, Eq, Default)]
pub struct Letter {
    pub link: u16,
    pub sender: u16,
    pub body: Body,
}

// Whether a body's subject exists, in a network of so many links, and its counter is in range.
// Promise: equals `Values.body_test`: in a network of so many links the body's subject exists and its counter is in range; with a network's
// links this is `Letters.body_holds` (`Bodies.body_is`).
pub fn body_holds(links: u8, body: Body) -> bool
    ensures { result ≡ body_test links body }
{
    match body {
        Body::Request => true,
        Body::Reply(c) => 1 <= c,
        Body::Notice(subject, c) => subject < links && 1 <= c,
    }
}

// Whether a station is an end of a link.
// Promise: s is one of the two ends.
pub fn is_end(low: u8, high: u8, s: u16) -> bool
    ensures { result ≡ (eqb low s || eqb high s) }
{
    u16::from(low) == s || u16::from(high) == s
}
