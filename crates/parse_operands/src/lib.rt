// A statement's operands, one after another with commas between them.
#![tactic(auto)]

ghost use Rattle.std.specs.Prelude.{◌≡◌, ◌≤◌, ◌<◌, length};
ghost use Rattle.parse_field.specs.Coded.{field_of, Adds, given};
ghost use Rattle.parse_rows.specs.Rows.{fields_by};
ghost use Rattle.parse_operands.specs.Lines.{coded_due, due_at, next_step, field_in, line_step};

use base_refusals::Fault;
use base_text::Class;
use lex::next_lexeme;
use parse_field::{Field, Given};
use parse_rows::Row;

// Where operand k is due, behind operands that end at a place: the first stands there, any other behind a comma; or the refusal of what stands there instead of the comma.
// A comma is known by its byte.
fn operand_place(src: &[u8], k: u16, stop: usize) -> Result<usize, Fault>
    ensures { result ≡ coded_due (due_at src.now k stop) }
{
    if k == 0 {
        return Ok(stop);
    }
    let comma = base_text::run_end(src, stop, Class::Space);
    if base_text::byte_at(src, comma) == b',' {
        return Ok(comma + 1);
    }
    let t = next_lexeme(src, comma);
    let start = t.start;
    let end = t.end;
    if t.sort == lex_token::FAULT {
        return Err(Fault {
            number: t.value,
            start,
            end,
        });
    }
    Err(Fault {
        number: base_refusals::BAD_STATEMENT,
        start,
        end,
    })
}

// Operand k, behind what is given.
fn next_operand(src: &[u8], k: u16, g: Given, field: Field, other: u16) -> Result<Given, Fault>
    requires { g.bits ≤ 268435456 }
    ensures { Adds g result (next_step src.now k (field_of field) other g) }
{
    let place = operand_place(src, k, g.stop)?;
    parse_field::operand_at(src, place, g, field, other)
}

// Nothing but a row's word, up to a place.
fn bare(base: u16, stop: usize) -> Given
    ensures { result ≡ given base 0 0 0 0 0 stop }
{
    Given {
        bits: u32::from(base),
        reach: parse_field::NO_LABEL,
        label_start: 0,
        label_end: 0,
        text_start: 0,
        text_end: 0,
        stop,
    }
}

// The most operands of a row.
const OPERANDS: u16 = 3;

// How many operands a row has: at most three.
fn operand_count(row: Row) -> u16
    ensures { (result ≡ length (fields_by row.count row.first row.second row.third)) × (result ≤ 3) }
{
    row.count.min(OPERANDS)
}

// The field of operand k.
fn field_at(row: Row, k: u16) -> Field
    ensures { result ≡ field_in k row.first row.second row.third }
{
    let first = row.first;
    let second = row.second;
    let third = row.third;
    if k == 0 {
        return first;
    }
    if k == 1 {
        return second;
    }
    third
}

// The operands of a row from a place on. `other` is the refusal of a token that is no operand of its field.
pub fn operands_from(src: &[u8], at: usize, row: Row, other: u16) -> Result<Given, Fault>
    ensures { result ≡ line_step src.now (fields_by row.count row.first row.second row.third) other row.base at }
{
    let count = operand_count(row);
    let mut g = bare(row.base, at);
    for k in 0..count {
        g = next_operand(src, k, g, field_at(row, k), other)?;
    }
    Ok(g)
}
