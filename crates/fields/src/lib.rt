// Fields: a one-byte tag, a two-byte length with the high byte first, a value. Sheets and letters are made of them.
// Inner doors: the calls are in docs/CALLS.md.
#![tactic(auto)]

ghost use Rattle.std.specs.Prelude.{◌≡◌};
ghost use Rattle.fields.specs.Fields.{wide, first_field, cut_as, put_field, put_size};

// The field at the front of some bytes, and the bytes after it.
#[derive(Clone, Copy)]
pub struct Cut<'a> {
    pub tag: u8,
    pub value: &'a [u8],
    pub rest: &'a [u8],
}

// A number of two bytes, the high one first.
// Promise: equals `Fields.wide`: 256 times the high byte and the low one.
pub fn two_bytes(high: u8, low: u8) -> u16
    ensures { result ≡ wide high low }
{
    u16::from_be_bytes([high, low])
}

// Cuts one field off the front; none where the bytes end inside it.
// Promise: equals `Fields.first_field`: short, or tag, value and rest.
pub fn cut_first(bytes: &[u8]) -> Option<Cut<'_>>
    ensures { cut_as result ≡ first_field bytes.now }
{
    let [tag, high, low, after @ ..] = bytes else {
        return None;
    };
    let length = two_bytes(*high, *low) as usize;
    if after.len() < length {
        return None;
    }
    let (value, rest) = after.split_at(length);
    Some(Cut {
        tag: *tag,
        value,
        rest,
    })
}

// Writes a field at the front of the output and answers its size. Where it does not fit, nothing is written.
// Promise: the field's bytes over the front of the output and how many, or none and the output untouched where it does not fit.
pub fn put(out: &mut [u8], tag: u8, value: &[u8]) -> Option<usize>
    ensures size { result ≡ put_size value.now out.old }
    ensures output { out.new ≡ put_field tag value.now out.old }
{
    let Ok(length) = u16::try_from(value.len()) else {
        return None;
    };
    let n = value.len() + 3;
    if out.len() < n {
        return None;
    }
    let [high, low] = length.to_be_bytes();
    out[..3].copy_from_slice(&[tag, high, low]);
    out[3..n].copy_from_slice(value);
    Some(n)
}
