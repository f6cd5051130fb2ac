// One station's part of the page, on bytes and small values alone: its own line, and under a live one a line for each station and
// each link as the report shows them.
// An inner door: the calls are in docs/CALLS.md.
#![tactic(auto)]

ghost use Rattle.std.specs.Prelude.{◌≡◌, ◌≤◌, length, get_or, if◌then◌else◌, IfOk};
ghost use Rattle.lists.specs.Lists.{below};
ghost use Rattle.lists.specs.Places.{collect};
ghost use Rattle.text.specs.Line.{Adds};
ghost use Rattle.console.specs.Outputs.{Counts, wrote_by};
ghost use Rattle.fields.specs.Output.{writing_output};
ghost use Rattle.page_part.specs.Texts.{still_text, reach_text, lowest_text, station_shown, link_shown, seen_text, link_text};
ghost use Rattle.page_part.specs.Parts.{part_text, part_writing};
ghost use Rattle.page_part.specs.Words.{waiting_word, down_word};

use console::Refusal;
use net::Net;
use text::Line;

// ---- the station's own line

fn condition_word(waiting: bool) -> &'static [u8]
    ensures { result.now ≡ (if waiting then waiting_word else down_word) }
{
    if waiting { b" waiting\n" } else { b" down\n" }
}

// A station that isn't live.
fn put_still(line: &mut Line, s: u8, waiting: bool)
    ensures { Adds (still_text s waiting) line.old line.new }
{
    line.word(b"station ");
    line.number(s as u64);
    line.word(condition_word(waiting));
}

// A live one, with how many of how many it reaches.
fn put_reach(line: &mut Line, s: u8, ones: u8, stations: u8)
    ensures { Adds (reach_text s ones stations) line.old line.new }
{
    line.word(b"station ");
    line.number(s as u64);
    line.word(b" live, reaches ");
    line.number(ones as u64);
    line.word(b" of ");
    line.number(stations as u64);
}

fn put_lowest(line: &mut Line, lowest: u8)
    ensures { Adds (lowest_text lowest) line.old line.new }
{
    if lowest == 255 {
        return line.word(b"\n");
    }
    line.word(b", lowest not reached ");
    line.number(lowest as u64);
    line.word(b"\n");
}

// ---- the report's lines

fn station_shown(shown: u8) -> &'static [u8]
    ensures { result.now ≡ station_shown shown }
{
    if shown == 1 {
        b" working\n"
    } else {
        b" unreachable\n"
    }
}

fn put_seen(line: &mut Line, t: usize, shown: u8)
    ensures { Adds (seen_text t shown) line.old line.new }
{
    line.word(b"  station ");
    line.number(t as u64);
    line.word(station_shown(shown));
}

fn link_shown(shown: u8) -> &'static [u8]
    ensures { result.now ≡ link_shown shown }
{
    match shown {
        0 => b") perceived unreachable\n",
        1 => b") working\n",
        _ => b") unresponsive\n",
    }
}

fn put_link(line: &mut Line, k: usize, low: u8, high: u8, shown: u8)
    ensures { Adds (link_text k low high shown) line.old line.new }
{
    line.word(b"  link ");
    line.number(k as u64);
    line.word(b" (");
    line.number(low as u64);
    line.word(b"-");
    line.number(high as u64);
    line.word(link_shown(shown));
}

fn put_stations_seen(line: &mut Line, seen: &[u8])
    ensures { Adds (collect (λ t. seen_text t (get_or seen.now t 0)) (below (length seen.now))) line.old line.new }
{
    for (t, shown) in seen.iter().enumerate() {
        put_seen(line, t, *shown);
    }
}

fn put_links_seen(line: &mut Line, net: Net, seen: &[u8])
    requires { length seen.now ≤ 64 }
    ensures { Adds (collect (λ k. link_text k (get_or net.low k 0) (get_or net.high k 0) (get_or seen.now k 0))
        (below (length seen.now))) line.old line.new }
{
    for (k, shown) in seen.iter().enumerate() {
        put_link(line, k, net.low[k], net.high[k], *shown);
    }
}

// The part, by the reach's number and by small values alone.
// Promise: one station's part of the page by the reach's number: 0 its line and a line for each station and each link of the report's
// bytes, 7 its line alone, any other number handed back with nothing put.
pub fn put_part(
    number: u8,
    net: Net,
    s: u8,
    ones: u8,
    lowest: u8,
    waiting: bool,
    seen: [u8; 96],
    out: &mut [u8],
) -> Result<usize, Refusal>
    ensures answer { result ≡ wrote_by (part_writing number (part_text number net s ones lowest waiting seen) out.old) }
    ensures output { out.new ≡ writing_output
        (part_writing number (part_text number net s ones lowest waiting seen) out.old) out.old }
    ensures room { IfOk result (λ n. Counts n out.new) }
{
    // Stays: a number, since any that says no is handed back as it is: `part_writing` in the clause `answer`
    if !matches!(number, 0 | 7) {
        return Err(Refusal(number));
    }
    // a line of at most 65 bytes, 32 of at most 26, 64 of at most 44
    if out.len() < 4096 {
        return Err(Refusal(10));
    }
    let mut line = Line { out, at: 0 };
    if number != 0 {
        put_still(&mut line, s, waiting);
        return Ok(line.at);
    }
    let stations = net.stations.min(32);
    let n = stations as usize;
    let m = net.links.min(64) as usize;
    put_reach(&mut line, s, ones, stations);
    put_lowest(&mut line, lowest);
    put_stations_seen(&mut line, &seen[..n]);
    put_links_seen(&mut line, net, &seen[n..n + m]);
    Ok(line.at)
}
