// A small reader of stored bytes: it holds the lent bytes and a position, and gives one field at a time. Its functions are thin: each takes the struct apart, or makes it, and calls a function on the slice and the number.
#![tactic(auto)]

ghost use Rattle.std.specs.Prelude.{◌≡◌};
ghost use Rattle.rules.specs.Stored.{field_at};
ghost use Rattle.stored_read.specs.Told.{told, content_of};
ghost use Rattle.stored_reader.specs.Steps.{behind, stepped};

use stored_read::{Field, content_of, field_at};

#[derive(Clone, Copy)]
pub struct Reader<'a> {
    pub bytes: &'a [u8],
    pub at: usize,
}

// What a step gives: the field, and the reader that stands behind it.
#[derive(Clone, Copy)]
pub struct Step<'a> {
    pub field: Field,
    pub rest: Reader<'a>,
}

// Where to read on: behind a field; where no field is, nothing comes after it.
pub fn past(field: Field, at: usize) -> usize
    ensures { result ≡ behind field at }
{
    match field {
        Field::Found {
            tag: _,
            start: _,
            end,
        } => end,
        Field::CutShort => at,
        Field::Over => at,
    }
}

// A reader that stands at the first field.
pub fn start<'a>(bytes: &'a [u8]) -> Reader<'a>
    ensures { (result.bytes ≡ bytes.entry) × (result.at ≡ 0) }
{
    Reader { bytes, at: 0 }
}

// The next field, and the reader behind it.
pub fn next<'a>(reader: Reader<'a>) -> Step<'a>
    ensures { result ≡ stepped reader.entry }
{
    let field = field_at(reader.bytes, reader.at);
    let at = past(field, reader.at);
    Step {
        field,
        rest: Reader {
            bytes: reader.bytes,
            at,
        },
    }
}

// The content of a field, as a part of the lent bytes.
pub fn content<'a>(reader: Reader<'a>, field: Field) -> &'a [u8]
    ensures { result.now ≡ content_of reader.entry.bytes.now field }
{
    content_of(reader.bytes, field)
}

// The field at a position, by a reader that stands there: from plain values to plain values, so that a caller holds no reader.
pub fn read_at(bytes: &[u8], at: usize) -> Field
    ensures { result ≡ told at (field_at bytes.now at) }
{
    let step = next(Reader { bytes, at });
    step.field
}
