// Whether what one station holds is well formed, and whether letters are: the parts of the test of a whole state.
// Inner doors: the calls are in docs/CALLS.md.
#![tactic(auto)]

ghost use Rattle.std.specs.Prelude.{◌≡◌, not, ◌&&◌, ◌%◌, max, min, eqb, leb, ltb};
ghost use Rattle.lists.specs.Words.{in_word};
ghost use Rattle.net.specs.Letters.{is_counter};
ghost use Rattle.net.specs.Sizes.{station_room, link_room};
ghost use Rattle.sets.specs.Sets.{word_by};
ghost use Rattle.marks.specs.Marks.{marks_at};
ghost use Rattle.station.specs.Holding.{implies};
ghost use Rattle.station.specs.declared.Condition.TheVariants.{Down, Waiting, Live};
ghost use Rattle.state_rules.specs.Formed.{station_test};
ghost use Rattle.state_rules.specs.Steps.{every_place, beside_token, marks_test};
ghost use Rattle.state_rules.specs.Carried.{in_rooms, past_subject, counter_holds, gathered_hold};

use marks::Words;
use net::Body;
use station::{Condition, Station};

// ---- a station's counters, gathered place by place and asked for once: no jump goes by what one of them is

// What was gathered, with one number more.
fn joined(a: u16, b: u16) -> u16
    ensures { (eqb result 0 ≡ (eqb a 0 && eqb b 0)) × (leb result 1 ≡ (leb a 1 && leb b 1)) }
{
    a | b
}

// 0 of a counter; none is 0.
fn no_counter(c: u16) -> u16
    ensures { eqb result 0 ≡ is_counter c }
{
    if c == 0 { 1 } else { 0 }
}

// ---- a station's marks, all links at once

// Whether all of the first set is in the second.
fn within(a: u64, b: u64) -> bool
    ensures { result ≡ every_place (λ t. implies (in_word a t) (in_word b t)) }
{
    sets::without(a, b) == 0
}

// Whether the two sets share nothing.
fn apart(a: u64, b: u64) -> bool
    ensures { result ≡ every_place (λ t. not (in_word a t && in_word b t)) }
{
    sets::without(a, b) == a
}

// The links with a mark other than token.
fn beside_token(w: Words) -> u64
    ensures { result ≡ word_by (λ t. beside_token (marks_at w t)) }
{
    sets::join(sets::join(w.turn, w.testing), sets::join(w.asked, w.quiet))
}

// No mark at all.
fn down_formed(own: u64, w: Words) -> bool
    ensures { result ≡ every_place (λ t. marks_test Down (in_word own t) (marks_at w t)) }
{
    sets::join(w.token, beside_token(w)) == 0
}

// Token alone on each own link.
fn waiting_formed(own: u64, w: Words) -> bool
    ensures { result ≡ every_place (λ t. marks_test Waiting (in_word own t) (marks_at w t)) }
{
    w.token == own && beside_token(w) == 0
}

// Marks that may stand together, on own links.
fn live_formed(own: u64, w: Words) -> bool
    ensures { result ≡ every_place (λ t. marks_test Live (in_word own t) (marks_at w t)) }
{
    let idle = sets::join(sets::join(w.token, w.turn), w.quiet);
    let all = sets::join(w.token, beside_token(w));
    let tests_apart = apart(w.testing, idle);
    let asked_tests = within(w.asked, w.testing);
    let token_apart = apart(w.token, w.turn);
    let marks_own = within(all, own);
    tests_apart && asked_tests && token_apart && marks_own
}

fn marks_formed(condition: Condition, own: u64, w: Words) -> bool
    ensures { result ≡ every_place (λ t. marks_test condition (in_word own t) (marks_at w t)) }
{
    match condition {
        Condition::Down => down_formed(own, w),
        Condition::Waiting => waiting_formed(own, w),
        Condition::Live => live_formed(own, w),
    }
}

// Whether what a station holds is well formed, with its unused room zero, in a network of so many links; own are the links that it is an
// end of. It takes that word and not the network, so that a test of all stations goes through the links once.
// Promise: equals `Formed.station_test`: the marks stand as they may and on own links, the counters are right and there are none beyond the
// links; with a station's own links this is `Formed.station_formed` (`Parts.test_is`).
pub fn station_formed(links: u8, own: u64, st: Station) -> bool
    ensures { result ≡ station_test links own st }
{
    let condition = st.condition;
    if !marks_formed(condition, own, st.marks) {
        return false;
    }
    let m = sets::at_most_64(links) as usize;
    let counters = st.counters;
    let mut wrong: u16 = 0;
    let mut all: u16 = 0;
    for c in counters[..m].iter() {
        wrong = joined(wrong, no_counter(*c));
        all = joined(all, *c);
    }
    let mut beyond: u16 = 0;
    for c in counters[m..].iter() {
        beyond = joined(beyond, *c);
    }
    let low = all <= 1;
    wrong == 0 && (station_kinds::is_live(condition) || low) && beyond == 0
}

// ---- The letters in flight, gathered and asked for once: which kind a letter is can't be foretold, so no jump goes by it. Each gatherer
// takes what was gathered and one letter's part.

// The links and senders of the letters so far, with one letter's.
// Promise: they are in their rooms (`Carried.in_rooms`) if those before were, the letter's link is below 64 and its sender below 32.
pub fn joined_ways(ways: u64, link: u16, sender: u16) -> u64
    ensures { in_rooms result ≡ (in_rooms ways && (ltb link link_room && ltb sender station_room)) }
{
    ways | (link as u64 + sender as u64 * 65536)
}

// Whether the senders so far are ends of their links, in bit 0; own are the own links of one more sender.
// Promise: bit 0 is there if it was, and the letter's link, where it is in the room, is among the links given.
pub fn still_ended(ended: u64, own: u64, link: u16) -> u64
    ensures { in_word result 0 ≡ (in_word ended 0 && in_word own (link % link_room)) }
{
    ended & (own >> (link % 64))
}

// One past what a letter tells of.
// Promise: equals `Carried.past_subject`: 0 of a letter that tells of no link.
pub fn past_subject(body: Body) -> u16
    ensures { result ≡ past_subject body }
{
    match body {
        Body::Request | Body::Reply(_) => 0,
        Body::Notice(subject, _) => subject as u16 + 1,
    }
}

// The counter that a letter says, 1 where it has none.
// Promise: no 0, if the letter's counter is in range (`Carried.counter_holds`), and else 0.
pub fn counter_said(body: Body) -> u16
    ensures { leb 1 result ≡ counter_holds body }
{
    match body {
        Body::Request => 1,
        Body::Reply(c) | Body::Notice(_, c) => c,
    }
}

// The larger of two: the most links told of so far.
// Promise: the larger of the two.
pub fn larger(a: u16, b: u16) -> u16
    ensures { result ≡ max a b }
{
    a.max(b)
}

// The smaller of two: the least counter so far.
// Promise: the smaller of the two.
pub fn smaller(a: u16, b: u16) -> u16
    ensures { result ≡ min a b }
{
    a.min(b)
}

// Whether all letters are well formed, by what was gathered of them, in a network of so many links.
// Promise: equals `Carried.gathered_hold`: all four hold.
pub fn letters_formed(links: u8, ways: u64, ended: u64, most: u16, least: u16) -> bool
    ensures { result ≡ gathered_hold links ways ended most least }
{
    (ways / 64) % 1024 == 0
        && ways / 2097152 == 0
        && ended % 2 == 1
        && most <= links as u16
        && 1 <= least
}
