// A sending is counted, since more letters than fit are refused, and posted letter by letter: the first letter left, and what is
// left after it. So the network appends the letters by one flat loop, and no list of them is built before. The table that is told
// is not in it: whoever owns the table reads the one counter that a notice tells. Each step goes by cases; to compute them all and
// to pick takes longer. Every public function answers every input.
// Inner doors: the calls are in docs/CALLS.md.
#![tactic(auto)]

ghost use Rattle.std.specs.Prelude.{◌≡◌, ◌&&◌, List, ℕ, length};
ghost use Rattle.station.specs.Values.{members_of, letters_of};
ghost use Rattle.post.specs.Links.{some_in, lowest_in, less_lowest};
ghost use Rattle.post.specs.Post.{begun_post, first_left, rest_left};

use net::{Body, Letter};
use station::Sending;

// A sending that is being posted: what is left of it.
#[derive(Debug, Clone, Copy, PartialEq, Eq)]
pub struct Post {
    pub requests: u64, // links still to be asked
    pub subjects: u64, // links still to be told of, the lowest of them being told now
    pub ways: u64, // on which each is told
    pub left: u64, // ways on which the lowest subject is still to be told
    pub replies: bool,
    pub reply: u16,
    pub link: u8,
}

// ---- how many letters

// How many links the word has.
fn size(w: u64) -> u16
    ensures { result ≡ length (members_of w) }
{
    w.count_ones() as u16
}

// How many letters the sending means, whoever sends it and whatever table is told.
// Promise: how many letters the sending means, whoever sends it and whatever table is told.
pub fn count(send: Sending) -> u16
    ensures { (s : ℕ) (told : List ℕ) → result ≡ length (letters_of s told send) }
{
    let notices = size(send.subjects) * size(send.ways);
    size(send.requests) + notices + u16::from(send.replies)
}

// ---- sets of links

// The lowest of them, 0 where there is none.
fn lowest(w: u64) -> u8
    ensures { result ≡ lowest_in w }
{
    let z = w.trailing_zeros();
    if z < 64 { z as u8 } else { 0 }
}

// The word without it.
fn less_lowest(w: u64) -> u64
    ensures { result ≡ less_lowest w }
{
    let z = w.trailing_zeros();
    if z < 64 { w - (1u64 << z) } else { w }
}

// Whether the first letter left is a notice, once no request is.
fn tells(subjects: u64, left: u64) -> bool
    ensures { result ≡ (some_in subjects && some_in left) }
{
    subjects != 0 && left != 0
}

// ---- posting

// The sending with nothing posted.
// Stays: a public function that docs/ names; an `impl From<Sending> for Post` would say it twice.
// Promise: equals `Post.begun_post`: all of the sending is left.
pub fn begun(send: Sending) -> Post
    ensures { result ≡ begun_post send }
{
    Post {
        requests: send.requests,
        subjects: send.subjects,
        ways: send.ways,
        left: send.ways, // all of them for the first subject
        replies: send.replies,
        reply: send.reply,
        link: send.link,
    }
}

// The link that the next notice tells of, 0 where none is left.
// Promise: the link that the next notice tells of.
pub fn subject(post: Post) -> u8
    ensures { result ≡ lowest_in post.subjects }
{
    lowest(post.subjects) // its counter is the one to be told
}

// The first letter left, from the station me, where a notice tells this counter; where none is left, any.
// Promise: equals `Post.first_left`: the first letter left, a notice telling this counter.
pub fn first(post: Post, me: u8, counter: u16) -> Letter
    ensures { result ≡ first_left me counter post }
{
    let sender = me as u16;
    if post.requests != 0 {
        let link = lowest(post.requests) as u16;
        return Letter {
            link,
            sender,
            body: Body::Request,
        };
    }
    if tells(post.subjects, post.left) {
        let link = lowest(post.left) as u16;
        return Letter {
            link,
            sender, // whatever the link
            body: Body::Notice(lowest(post.subjects), counter),
        };
    }
    Letter {
        link: post.link as u16,
        sender,
        body: Body::Reply(post.reply),
    }
}

// What is left after it: where the ways for a subject are used up, all of them are left for the next.
// Promise: equals `Post.rest_left`: what is left after it; with `PostLaws.step_seen` the letters of a sending, in their order.
pub fn rest(post: Post) -> Post
    ensures { result ≡ rest_left post }
{
    if post.requests != 0 {
        return Post {
            requests: less_lowest(post.requests),
            ..post
        };
    }
    if tells(post.subjects, post.left) {
        let less = less_lowest(post.left);
        if less != 0 {
            return Post { left: less, ..post };
        }
        return Post {
            subjects: less_lowest(post.subjects),
            left: post.ways, // all of them again
            ..post
        };
    }
    Post {
        replies: false,
        ..post
    }
}
