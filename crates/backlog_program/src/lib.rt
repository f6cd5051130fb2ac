// The backlog program, on bytes and values alone: the call over the list that crate `event_list` makes of a piece of the input, and the
// first line of what is printed. Nothing here reads or writes.
// Inner doors: the calls are in docs/CALLS.md.
#![tactic(auto)]

ghost use Rattle.std.specs.Prelude.{◌≡◌, IfOk};
ghost use Rattle.console.specs.Outputs.{Counts, wrote_by};
ghost use Rattle.fields.specs.Output.{with_room, writing_output};
ghost use Rattle.backlog_program.specs.Runs.{listing_of, ran_by, first_ran};
ghost use Rattle.backlog_program.specs.Backlog.{first_text, first_most};

use console::Refusal;
use event_lines::Reading;
use net::Net;
use state::State;
use tally::Tally;
use text::Line;

// ---- the call

// After a piece of the input: 0 or the number that says no, how many events were taken in all, and what goes on from there. The count has
// 64 bits and stays at its largest value once there.
// To do (docs/DESIGN-PASS.md, 1): an error in place of the number; the state stays beside it, since a refusal hands it
// back (`Runs.ran_by`).
// Stays: no one type with `event_program::Ran`: a parameter for the count, of events taken or of the trace's numbers, is no plainer.
#[derive(Clone, Copy)]
pub struct Ran {
    pub answer: u8,
    pub taken: u64,
    pub reading: Reading,
    pub tally: Tally,
    pub state: State,
}

// What the backlog program holds before its first line.
// Promise: the fresh state of the network, no event taken and none counted, and no byte of a line read.
pub fn begin(net: Net) -> Ran
    ensures { result ≡ first_ran net }
{
    let first = event_program::begin(net);
    Ran {
        answer: first.answer,
        taken: 0,
        reading: first.reading,
        tally: first.tally,
        state: first.state,
    }
}

// Takes the event lines that end in these bytes by one call; the lent list is the room for their numbers. After an answer that is not 0
// nothing is taken.
// Promise: the call over the numbers of the lines that end in these bytes, 0 0 0 for a malformed line: its answer, the events taken in
// all, and the state, tally and reading after them; 10 where the list has fewer than three places for each byte; after an answer that is
// not 0 all stays as it was.
pub fn take_lines(ran: Ran, bytes: &[u8], list: &mut [u32]) -> Ran
    ensures answer { result ≡ ran_by (listing_of ran bytes.now list.old) ran bytes.now }
    ensures list { list.new ≡ writing_output (listing_of ran bytes.now list.old) list.old }
{
    if ran.answer != 0 {
        return ran;
    }
    let listed = match event_list::list_lines(ran.reading, bytes, list) {
        Ok(listed) => listed,
        Err(short) => {
            return Ran {
                answer: short.number(),
                ..ran
            };
        }
    };
    let done = backlog_run::run_backlog(ran.state, ran.tally, &list[..listed.size]);
    Ran {
        answer: done.answer,
        taken: ran.taken.saturating_add(done.taken as u64),
        reading: listed.reading,
        tally: done.tally,
        state: done.state,
    }
}

// ---- what is printed

// The first line; the stations' lines behind it are those of the event program.
// Promise: `TAKEN ANSWER FLYING SETTLED`: how many events were taken, 0 or the number that said no, the letters in flight, the notices
// settled.
pub fn put_backlog(
    taken: u64,
    answer: u8,
    flying: u16,
    settled: u64,
    out: &mut [u8],
) -> Result<usize, Refusal>
    ensures answer { result ≡ wrote_by (with_room first_most (first_text taken answer flying settled) out.old) }
    ensures output { out.new ≡ writing_output (with_room first_most (first_text taken answer flying settled) out.old)
        out.old }
    ensures room { IfOk result (λ n. Counts n out.new) }
{
    // two numbers of at most 20 digits, one of 3, one of 5, three spaces and the newline
    if out.len() < 52 {
        return Err(Refusal(10));
    }
    let mut line = Line { out, at: 0 };
    line.number(taken);
    line.word(b" ");
    line.field(answer as u16);
    line.field(flying);
    line.number(settled);
    line.word(b"\n");
    Ok(line.at)
}
