// What a person is told of stored bytes that break the form: the offset of the field, and what stands there.
#![tactic(auto)]

ghost use Rattle.std.specs.Prelude.{◌≡◌};
ghost use Rattle.view_text.specs.Put.{Put};
ghost use Rattle.view_stored.specs.Broken.{tag_text, field_text, ends_at, wrong_text, offset_text, broken_text};

use stored_fields::{
    BLOCK, DEFINED_LABEL, END, EXTERNAL_LABEL, RELOCATION, SET_WORDS, UNSET_WORDS,
};
use stored_read::Field;
use view_text::put;

// A whole field that cannot stand where it stands, by its tag.
fn put_tag(out: &mut [u8], at: usize, tag: u8) -> usize
    ensures { Put out.old out.new at result (tag_text tag) }
{
    match tag {
        END => put(
            out,
            at,
            b"the end with content, or before all words of a block",
        ),
        BLOCK => put(
            out,
            at,
            b"a block with no words, not above the last, past xFE00, before all words of the last, after a label, or one too many",
        ),
        SET_WORDS => put(
            out,
            at,
            b"set words where there are none, half a one, above 16,384, more than their block lacks, or behind others that are not full",
        ),
        UNSET_WORDS => put(
            out,
            at,
            b"unset words where there are none, more than their block lacks, or behind others",
        ),
        DEFINED_LABEL => put(
            out,
            at,
            b"a label with no good name, not above the last, before all words of a block, after a relocation, or one too many",
        ),
        EXTERNAL_LABEL => put(
            out,
            at,
            b"an external with no good name, not above the last, before all words of a block, after a relocation, or one too many",
        ),
        RELOCATION => put(
            out,
            at,
            b"a relocation at no set word 0, of no external, not above the last, or one too many",
        ),
        _ => put(out, at, b"no field has this tag"),
    }
}

// What stands at a place.
fn put_field(out: &mut [u8], at: usize, field: Field) -> usize
    ensures { Put out.old out.new at result (field_text field) }
{
    match field {
        Field::Over => put(out, at, b"the field that ends the bytes is missing"),
        Field::CutShort => put(out, at, b"a field that is cut short"),
        Field::Found {
            tag,
            start: _,
            end: _,
        } => put_tag(out, at, tag),
    }
}

// Whether the bytes before a place are a stored object, so that what stands there comes after its end.
fn ends_at(bytes: &[u8], offset: usize) -> bool
    ensures { result ≡ ends_at bytes.now offset }
{
    let answer = stored_check::check(stored_read::part_of(bytes, 0, offset));
    answer.number == 0
}

// What is wrong at a place.
fn put_wrong(out: &mut [u8], at: usize, bytes: &[u8], offset: usize) -> usize
    ensures { Put out.old out.new at result (wrong_text bytes.now offset) }
{
    if ends_at(bytes, offset) {
        return put(out, at, b"bytes after the end");
    }
    let field = stored_read::field_at(bytes, offset);
    put_field(out, at, field)
}

// The offset of a field.
fn put_offset(out: &mut [u8], at: usize, offset: usize) -> usize
    ensures { Put out.old out.new at result (offset_text offset) }
{
    let a = put(out, at, b"    at byte ");
    let b = view_text::put_decimal(out, a, offset as u64);
    put(out, b, b": ")
}

// The line of an offset at which stored bytes are refused.
pub fn put_broken(out: &mut [u8], at: usize, bytes: &[u8], offset: usize) -> usize
    ensures { Put out.old out.new at result (broken_text bytes.now offset) }
{
    let a = put_offset(out, at, offset);
    let b = put_wrong(out, a, bytes, offset);
    put(out, b, b"\n")
}
