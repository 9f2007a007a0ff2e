// Reading stored bytes: the number at a place, the field at a position, and a field's content as a part of the bytes.
#![tactic(auto)]

ghost use Rattle.std.specs.Prelude.{◌≡◌, ◌+◌, ◌-◌, ◌≤◌, length};
ghost use Rattle.rules.specs.Stored.{field_at};
ghost use Rattle.laws_stored.specs.Offsets.{number_at, part_at};
ghost use Rattle.stored_read.specs.Told.{told, content_of};

use stored_fields::HEAD_BYTES;

// What stands at a position: nothing, since the bytes end there; a field that is cut short; or a field, its tag and where its content begins and ends. The next field begins where the content ends.
#[derive(Clone, Copy)]
pub enum Field {
    Over,
    CutShort,
    Found { tag: u8, start: usize, end: usize },
}

// How many values a byte has.
const BYTE: u16 = 0x100;

// The number at a place, its high byte first.
pub fn number_at(bytes: &[u8], at: usize) -> u16
    requires { at + 2 ≤ length bytes.now }
    ensures { result ≡ number_at bytes.now at }
{
    let next = at + 1;
    u16::from(bytes[at]) * BYTE + u16::from(bytes[next])
}

// The field at a position.
pub fn field_at(bytes: &[u8], at: usize) -> Field
    ensures { result ≡ told at (field_at bytes.now at) }
{
    let size = bytes.len();
    if size <= at {
        return Field::Over;
    }
    if size - at < HEAD_BYTES {
        return Field::CutShort;
    }
    let start = at + HEAD_BYTES;
    let length = usize::from(number_at(bytes, at + 1));
    if size - start < length {
        return Field::CutShort;
    }
    Field::Found {
        tag: bytes[at],
        start,
        end: start + length,
    }
}

// The bytes from `start` up to `end`, as far as they are there.
pub fn part_of<'a>(bytes: &'a [u8], start: usize, end: usize) -> &'a [u8]
    ensures { result.now ≡ part_at bytes.now start (end - start) }
{
    let stop = end.min(bytes.len());
    if stop <= start {
        return &bytes[..0];
    }
    &bytes[start..stop]
}

// The content of a field, as a part of the bytes; empty where there is no field.
pub fn content_of<'a>(bytes: &'a [u8], field: Field) -> &'a [u8]
    ensures { result.now ≡ content_of bytes.now field }
{
    match field {
        Field::Over => part_of(bytes, 0, 0),
        Field::CutShort => part_of(bytes, 0, 0),
        Field::Found { tag: _, start, end } => part_of(bytes, start, end),
    }
}
