// The page: its first line, and each station's part of it, what `report` answers for the station, put by `page_part`.
// An inner door: the calls are in docs/CALLS.md.
#![tactic(auto)]

ghost use Rattle.std.specs.Prelude.{◌≡◌, IfOk};
ghost use Rattle.report.specs.Answers.{asked_in, asked_of};
ghost use Rattle.console.specs.Outputs.{Counts, wrote_by};
ghost use Rattle.fields.specs.Output.{with_room, writing_output};
ghost use Rattle.page_part.specs.Parts.{part_writing};
ghost use Rattle.page_program.specs.Page.{station_part};
ghost use Rattle.page_program.specs.Counting.{counted, counting, counts_text};

use console::Refusal;
use reach::Reached;
use state::State;
use text::Line;

// The number of an answer and the reach beside it; a refusal has none.
fn by_number(reach: Result<Reached, report::Refusal>) -> (u8, Reached)
    ensures { record { answer = result.0; reached = result.1 } ≡ asked_in reach }
{
    match reach {
        Ok(reached) => (0, reached),
        Err(refusal) => (refusal.number(), Reached::default()),
    }
}

// Station i's part of the page. Refusals in their order: 11, 6, 10; none of them touches the output.
// Promise: the part of station i, from the answers of `report::reach` and `report::report` for it.
pub fn put_station(s: State, i: u8, out: &mut [u8]) -> Result<usize, Refusal>
    ensures answer { result ≡ wrote_by (part_writing (asked_of s i).answer (station_part s i) out.old) }
    ensures output { out.new ≡ writing_output (part_writing (asked_of s i).answer (station_part s i) out.old)
        out.old }
    ensures room { IfOk result (λ n. Counts n out.new) }
{
    let (number, reached) = by_number(report::reach(s, i as u32));
    let mut seen = [0u8; 96];
    // what refuses the report refuses the reach, and then the room is not looked at
    let _ = report::report(s, i as u32, &mut seen);
    let here = sets::in_room(i as u32) as usize;
    page_part::put_part(
        number,
        s.net,
        i,
        reached.ones,
        reached.lowest,
        station_kinds::is_waiting(s.stations[here].condition),
        seen,
        out,
    )
}

// ---- How many events were taken and refused, counted in the trace of their run: the page's first line.

// Each count has 64 bits and stays at its largest value once there.
#[derive(Debug, Clone, Copy, PartialEq, Eq, Default)]
pub struct Answers {
    pub taken: u64,
    pub refused: u64,
}

fn count_answer(answer: u64, a: Answers) -> Answers
    ensures { result ≡ counted answer a }
{
    if answer == 0 {
        Answers {
            taken: a.taken.saturating_add(1),
            ..a
        }
    } else {
        Answers {
            refused: a.refused.saturating_add(1),
            ..a
        }
    }
}

// The answers of a run's trace, added to those before.
// Promise: of the events in the trace, those that are answered by 0 are taken and the others refused.
pub fn count_answers(trace: &[u64], before: Answers) -> Answers
    ensures { result ≡ counting trace.now before }
{
    let mut a = before;
    let (events, _) = trace.as_chunks::<3>();
    for &[answer, _, _] in events {
        a = count_answer(answer, a);
    }
    a
}

// The page's first line.
// Promise: `T events taken, R refused`.
pub fn put_counts(a: Answers, out: &mut [u8]) -> Result<usize, Refusal>
    ensures answer { result ≡ wrote_by (with_room 64 (counts_text a.taken a.refused) out.old) }
    ensures output { out.new ≡ writing_output (with_room 64 (counts_text a.taken a.refused) out.old)
        out.old }
    ensures room { IfOk result (λ n. Counts n out.new) }
{
    // two numbers of at most 20 digits, and 24 bytes of words
    if out.len() < 64 {
        return Err(Refusal(10));
    }
    let mut line = Line { out, at: 0 };
    line.number(a.taken);
    line.word(b" events taken, ");
    line.number(a.refused);
    line.word(b" refused\n");
    Ok(line.at)
}
