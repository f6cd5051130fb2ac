// Sets of links as 64-bit words, bit k for link k, and how many links there are room for.
// Inner doors: the calls are in docs/CALLS.md.
#![tactic(auto)]

ghost use Rattle.std.specs.Prelude.{◌≡◌, min, not, ◌&&◌, ◌||◌, eqb, if◌then◌else◌};
ghost use Rattle.lists.specs.Words.{in_word, bit_at};
ghost use Rattle.sets.specs.Sets.{word_by};
ghost use Rattle.sets.specs.Rooms.{in_room};

// Whether k is in the set; a place beyond the word is not.
// Promise: equals `Words.in_word`: k is in the set, and no place beyond 64 is.
pub fn has(w: u64, k: u8) -> bool
    ensures { result ≡ in_word w k }
{
    k < 64 && (w >> k) % 2 == 1
}

// The set with k, or without it; a place beyond the word changes nothing.
// Promise: the word that has k as `on` says and every other place as before; a place beyond 64 changes nothing.
pub fn put(w: u64, k: u8, on: bool) -> u64
    ensures { result ≡ word_by (λ t. if eqb t k then on else in_word w t) }
{
    if 64 <= k {
        return w;
    }
    let bit = 1u64 << k;
    if on { w | bit } else { w & !bit }
}

// What is in the first set and not in the second.
// Promise: what is in a and not in b.
pub fn without(a: u64, b: u64) -> u64
    ensures { result ≡ word_by (λ t. in_word a t && not (in_word b t)) }
{
    a & !b
}

// What is in either set.
// Promise: what is in either.
pub fn join(a: u64, b: u64) -> u64
    ensures { result ≡ word_by (λ t. in_word a t || in_word b t) }
{
    a | b
}

// As many links as the room holds.
// Stays: its must-fail edits (`room_of_63`, `room_without_bound`) keep their names, and speak of it; std's `min` does the work.
// Promise: as many links as the room holds.
pub fn at_most_64(x: u8) -> u8
    ensures { result ≡ min x 64 }
{
    x.min(64)
}

// ---- Small steps that several crates share: the bits of a word of stations, a number held below a bound, and two tests at once.

// Bit t of the word; a place beyond the word has none.
// Stays: beside `has`, since its promise (`Words.bit_at`) is the bit as a number of a word of 32 bits, not whether it is set in one of 64.
// Promise: equals `Words.bit_at`: bit t of the word, 0 beyond it.
pub fn bit_of(w: u32, t: u8) -> u32
    ensures { result ≡ bit_at w t }
{
    if t < 32 { (w >> t) % 2 } else { 0 }
}

// Whether the word has an end of a link.
// Promise: a or b is in the word.
pub fn has_end(a: u8, b: u8, w: u32) -> bool
    ensures { result ≡ (in_word w a || in_word w b) }
{
    bit_of(w, a) == 1 || bit_of(w, b) == 1
}

// The number, or the most that there may be.
// Stays: its must-fail edits (`at_least`, `without_bound`) keep their names, and speak of it; std's `min` does the work.
// Promise: the smaller of the two.
pub fn at_most(x: u8, most: u8) -> u8
    ensures { result ≡ min x most }
{
    x.min(most)
}

// Whether both tests pass.
// Stays: nothing calls it any more, but its must-fail edits (`first_is_both`, `one_is_both`) keep their names, and speak of it.
// Promise: both tests pass.
pub fn both(a: bool, b: bool) -> bool
    ensures { result ≡ (a && b) }
{
    a && b
}

// The place of a station's number in a room of 32, where it has one.
// Stays: 0 where it has none, since the definition `Rooms.in_room`, which it equals, says so.
// Promise: equals `Rooms.in_room`: the number, or 0 for one that is no place of the 32.
pub fn in_room(a: u32) -> u8
    ensures { result ≡ in_room a }
{
    if a < 32 { a as u8 } else { 0 }
}
