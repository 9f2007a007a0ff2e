// A note under a refused place: what was due there, what the operand takes and what stands there, or how far its label is.
#![tactic(auto)]

ghost use Rattle.std.specs.Prelude.{◌≤◌, length, ◌≡◌};
ghost use Rattle.parse_field.specs.Coded.{field_of};
ghost use Rattle.view_text.specs.Put.{Put};
ghost use Rattle.view_note.specs.Notes.{field_text, number_at, takes_text, operand_text, label_words, said_at, has_note, note_text};

use lex::next_lexeme;
use parse_field::Field;
use view_due::Due;
use view_text::{put, put_byte, put_decimal};

// What a field takes.
fn put_field(out: &mut [u8], at: usize, field: Field) -> usize
    ensures { Put out.old out.new at result (field_text (field_of field)) }
{
    match field {
        Field::Dr => put(out, at, b"a register"),
        Field::Sr => put(out, at, b"a register"),
        Field::RegOrImm => put(out, at, b"a register or a number from -16 to 15"),
        Field::Offset6 => put(out, at, b"a number from -32 to 31"),
        Field::Near9 => put(out, at, b"a label or a number from -256 to 255"),
        Field::Near11 => put(out, at, b"a label or a number from -1024 to 1023"),
        Field::Trap => put(out, at, b"a number from 0 to 255"),
        Field::Word => put(out, at, b"a number from 0 to 65535"),
        Field::Fill => put(out, at, b"a label or a number from -32768 to 65535"),
        Field::Name => put(out, at, b"a label"),
        Field::Text => put(out, at, b"a string"),
    }
}

// The number that stands at a place.
fn put_number(out: &mut [u8], at: usize, src: &[u8], place: usize) -> usize
    ensures { Put out.old out.new at result (number_at src.now place) }
{
    let t = next_lexeme(src, place);
    if t.sort == lex_token::NUMBER {
        return put_decimal(out, at, u64::from(t.value));
    }
    if t.sort == lex_token::NEGATIVE {
        let next = put_byte(out, at, b'-');
        return put_decimal(out, next, u64::from(t.value));
    }
    at
}

// What a field takes, and the number that stands there.
fn put_takes(out: &mut [u8], at: usize, src: &[u8], place: usize, field: Field) -> usize
    ensures { Put out.old out.new at result (takes_text src.now place (field_of field)) }
{
    let a = put(out, at, b"this operand takes ");
    let b = put_field(out, a, field);
    let c = put(out, b, b", and ");
    let d = put_number(out, c, src, place);
    put(out, d, b" stands here")
}

// An operand: of another number than the field takes, or of another kind.
fn put_operand(
    out: &mut [u8],
    at: usize,
    src: &[u8],
    number: u16,
    place: usize,
    field: Field,
) -> usize
    ensures { Put out.old out.new at result (operand_text src.now number place (field_of field)) }
{
    if number == base_refusals::OPERAND_RANGE {
        return put_takes(out, at, src, place, field);
    }
    let next = put_field(out, at, field);
    put(out, next, b" is due here")
}

// The last label before the place's statement, where there is one: it may have been meant for an instruction.
fn put_label(out: &mut [u8], at: usize, src: &[u8], place: usize) -> usize
    requires { place ≤ length src.now }
    ensures { Put out.old out.new at result (label_words src.now place) }
{
    let label = view_due::label_before(src, place);
    if label.end == 0 {
        return at;
    }
    let a = put(out, at, b"; ");
    let b = put(out, a, lex::label_text(src, label.start, label.end));
    put(out, b, b" before it was read as a label")
}

// What is due at a place.
fn put_said(out: &mut [u8], at: usize, src: &[u8], number: u16, place: usize) -> usize
    requires { place ≤ length src.now }
    ensures { Put out.old out.new at result (said_at src.now number place) }
{
    match view_due::due_at(src, place) {
        Due::Statement => {
            let next = put(out, at, b"an instruction or a directive is due here");
            put_label(out, next, src, place)
        }
        Due::Directive => put(
            out,
            at,
            b"the directives are .orig, .fill, .blkw, .stringz, .end and .external",
        ),
        Due::Comma => put(out, at, b"a comma is due here"),
        Due::LineEnd => put(out, at, b"the end of the line is due here"),
        Due::Operand(field) => put_operand(out, at, src, number, place, field),
    }
}

// The refusals whose note says what is due.
fn has_note(number: u16) -> bool
    ensures { result ≡ has_note number }
{
    (number == base_refusals::BAD_STATEMENT)
        | (number == base_refusals::BAD_OPERAND)
        | (number == base_refusals::OPERAND_RANGE)
}

// The note of a refusal at a place, where it has one.
pub fn put_note(out: &mut [u8], at: usize, src: &[u8], number: u16, place: usize) -> usize
    requires { place ≤ length src.now }
    ensures { Put out.old out.new at result (note_text src.now number place) }
{
    if number == base_refusals::OFFSET_NEW_ERR {
        return view_far::put_far(out, at, src, place);
    }
    if has_note(number) {
        let a = put(out, at, b"note: ");
        let b = put_said(out, a, src, number, place);
        return put_byte(out, b, b'\n');
    }
    at
}
