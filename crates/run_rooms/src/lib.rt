// A state in the parts in which a run of many events holds it: what the stations hold beside their tables; the tables of all of them side
// by side, so that no event copies one; and the letters in flight anywhere in their room, so that the shorter side may close up. From a
// state to its parts and back. Every public function answers every input.
// Inner doors: the calls are in docs/CALLS.md.
#![tactic(auto)]

ghost use Rattle.std.specs.Prelude.{◌≡◌, ◌-◌, min, length, take, drop};
ghost use Rattle.net.specs.Sizes.{letter_room};
ghost use Rattle.world.specs.World.{no_letter};
ghost use Rattle.run_rooms.specs.Rooms.{no_held, held_in, side_by_side, table_in, with_table, stations_in};
ghost use Rattle.run_rooms.specs.Rooms.{moving_room, moving_in, letters_in};

use counters::Counters;
use marks::Words;
use net::{Body, LETTER_ROOM, LINK_ROOM, Letter, STATION_ROOM};
use station::{Condition, Station};

// What a station holds beside its table.
#[derive(Debug, Clone, Copy, PartialEq, Eq, Default)]
pub struct Held {
    pub condition: Condition,
    pub marks: Words,
}

// The room of the tables of all stations side by side: that of station i begins at 64 * i.
pub const TABLES_ROOM: usize = 2048;

// The letters' room with as many places more as the front of those in flight may move up by.
pub const SPARE_ROOM: usize = 2048;

pub const MOVING_ROOM: usize = LETTER_ROOM + SPARE_ROOM;

// ---- from a state to its parts

// Promise: equals `Rooms.held_in`: at each place of the room of stations what that station holds beside its table.
pub fn held_of(stations: [Station; STATION_ROOM]) -> [Held; STATION_ROOM]
    ensures { result ≡ held_in stations }
{
    let mut held = [Held::default(); STATION_ROOM];
    for (i, st) in stations.iter().enumerate() {
        // its table stands elsewhere
        held[i] = Held {
            condition: st.condition,
            marks: st.marks,
        };
    }
    held
}

// Promise: equals `Rooms.side_by_side`: at place 64 * i + k what station i has for link k.
pub fn tables_of(stations: [Station; STATION_ROOM]) -> [u16; TABLES_ROOM]
    ensures { result ≡ side_by_side stations }
{
    let mut tables = [0u16; TABLES_ROOM];
    for (i, st) in stations.iter().enumerate() {
        let first = LINK_ROOM * i;
        tables[first..first + LINK_ROOM].copy_from_slice(&st.counters);
    }
    tables
}

// Promise: equals `Rooms.moving_in`: the letters as they stand, at the front of a larger room.
pub fn moving_room(letters: [Letter; LETTER_ROOM]) -> [Letter; MOVING_ROOM]
    ensures { result ≡ moving_in letters }
{
    let mut room = [Letter::default(); MOVING_ROOM];
    room[..LETTER_ROOM].copy_from_slice(&letters);
    room
}

// ---- and back

// So many elements from that place on; as many as there are, where these are fewer.
fn part<T>(xs: &[T], start: usize, many: usize) -> &[T]
    ensures items { result.now ≡ take many (drop start xs.now) }
    ensures size { length result.now ≡ min many (length xs.now - start) }
{
    let rest = &xs[start.min(xs.len())..];
    &rest[..many.min(rest.len())]
}

// The table of station i.
// Promise: equals `Rooms.table_in`: what the tables have at the 64 places from 64 * i on; 0 where they end before.
pub fn table_at(tables: &[u16], i: u8) -> Counters
    ensures { result ≡ table_in tables.now i }
{
    let mut table = [0u16; LINK_ROOM];
    let own = part(tables, LINK_ROOM * i as usize, LINK_ROOM);
    table[..own.len()].copy_from_slice(own);
    table
}

// The table of station i anew.
// Promise: equals `Rooms.with_table`: at the 64 places from 64 * i on this table, all else as it was.
pub fn put_table(tables: &mut [u16], i: u8, table: Counters)
    ensures { tables.new ≡ with_table tables.old i table }
{
    let first = tables.len().min(LINK_ROOM * i as usize);
    let n = LINK_ROOM.min(tables.len() - first); // all of it, where it has its room
    tables[first..first + n].copy_from_slice(&table[..n]);
}

// Promise: equals `Rooms.stations_in`: each station with what it holds and its table.
pub fn stations_of(held: [Held; STATION_ROOM], tables: &[u16]) -> [Station; STATION_ROOM]
    ensures { result ≡ stations_in held tables.now }
{
    let mut stations = [Station::default(); STATION_ROOM];
    for (i, h) in held.iter().enumerate() {
        stations[i] = Station {
            condition: h.condition,
            counters: table_at(tables, i as u8),
            marks: h.marks,
        };
    }
    stations
}

// The letters in flight at the front of their room, and the rest of it unused.
// Promise: equals `Rooms.letters_in`: so many letters from that start on (at most 4,096, and as many as the room has there), in zero room.
pub fn gathered(room: [Letter; MOVING_ROOM], start: usize, many: u16) -> [Letter; LETTER_ROOM]
    ensures { result ≡ letters_in room start (min (min many letter_room) (moving_room - start)) }
{
    let mut letters = [Letter::default(); LETTER_ROOM];
    let flying = part(&room, start, state::used_places(many) as usize);
    letters[..flying.len()].copy_from_slice(flying);
    letters
}
