// One operand into its field: which tokens a field takes, their numbers and ranges (14, 15, 16), and what the operands read so far give together.
#![tactic(auto)]

ghost use Rattle.std.specs.Prelude.{◌≡◌, List, ℕ, ◌≤◌, ◌-◌, leb, length, Ok, Err};
ghost use Rattle.std.proofs.Math.Option.{none};
ghost use Rattle.rules.specs.Base.{span};
ghost use Rattle.rules.specs.Tokens.{token_in, number, register, word, text};
ghost use Rattle.rules.specs.Words.{find, instructions};
ghost use Rattle.rules.specs.Statements.{operand, bits};
ghost use Rattle.base_refusals.specs.Refusals.{fault};
ghost use Rattle.parse_field.specs.Coded.{field_of, multiplier_of, range, range_of, raise_of, reach_of, texts_of, num_of, add_to, stepped, Adds, misplaced_at, operand_step};

use base_capacities::ADDRESSES;
use base_refusals::Fault;
use lex::next_lexeme;
use lex_token::Lexeme;

// What may stand as an operand: a register at bits 9 to 11 or 6 to 8, a register or an imm5, an offset6, an offset9 or a label, an offset11 or a label,
// a trap vector, a number of sixteen bits, what .fill takes, a label, a string.
#[derive(Clone, Copy)]
pub enum Field {
    Dr,
    Sr,
    RegOrImm,
    Offset6,
    Near9,
    Near11,
    Trap,
    Word,
    Fill,
    Name,
    Text,
}

// The numbers of a field, from -low to high, kept modulo modulus; all 0 where the field takes no number.
#[derive(Clone, Copy)]
pub struct Range {
    pub low: u16,
    pub high: u16,
    pub modulus: u32,
}

// What operands give together: the word's bits, the number of values of the label operand's field (0: no label) and the label's place, the string's place,
// and where the last operand ends.
#[derive(Clone, Copy)]
pub struct Given {
    pub bits: u32,
    pub reach: u32,
    pub label_start: usize,
    pub label_end: usize,
    pub text_start: usize,
    pub text_end: usize,
    pub stop: usize,
}

// The bits where the two registers begin, and the one beside an imm5.
const BIT_9: u32 = 512;

const BIT_6: u32 = 64;

const BIT_5: u32 = 32;

// How many values a field has: two to the power of its bits. A statement says this of its label operand's field, and NO_LABEL where it has none.
const IMM5: u32 = 32;

const OFFSET6: u32 = 64;

pub const OFFSET9: u32 = 512;

pub const OFFSET11: u32 = 2048;

const VECTORS: u32 = 256;

pub const NO_LABEL: u32 = 0;

// What a register is multiplied by, or 0 where the field takes none.
fn multiplier(field: Field) -> u32
    ensures { result ≡ multiplier_of field }
{
    match field {
        Field::Dr => BIT_9,
        Field::Sr => BIT_6,
        Field::RegOrImm => 1,
        Field::Offset6 => 0,
        Field::Near9 => 0,
        Field::Near11 => 0,
        Field::Trap => 0,
        Field::Word => 0,
        Field::Fill => 0,
        Field::Name => 0,
        Field::Text => 0,
    }
}

fn numbers(low: u16, high: u16, modulus: u32) -> Range
    ensures { result ≡ range low high modulus }
{
    Range { low, high, modulus }
}

// The numbers of a field: how far below 0 they go, how far above it, and how many values the field has.
fn range_of(field: Field) -> Range
    ensures { result ≡ range_of field }
{
    match field {
        Field::Dr => numbers(0, 0, 0),
        Field::Sr => numbers(0, 0, 0),
        Field::RegOrImm => numbers(16, 15, IMM5),
        Field::Offset6 => numbers(32, 31, OFFSET6),
        Field::Near9 => numbers(256, 255, OFFSET9),
        Field::Near11 => numbers(1024, 1023, OFFSET11),
        Field::Trap => numbers(0, 255, VECTORS),
        Field::Word => numbers(0, 65535, ADDRESSES),
        Field::Fill => numbers(32768, 65535, ADDRESSES),
        Field::Name => numbers(0, 0, 0),
        Field::Text => numbers(0, 0, 0),
    }
}

// What goes to the word with a number: bit 5 with an imm5.
fn raise(field: Field) -> u32
    ensures { result ≡ raise_of field }
{
    match field {
        Field::Dr => 0,
        Field::Sr => 0,
        Field::RegOrImm => BIT_5,
        Field::Offset6 => 0,
        Field::Near9 => 0,
        Field::Near11 => 0,
        Field::Trap => 0,
        Field::Word => 0,
        Field::Fill => 0,
        Field::Name => 0,
        Field::Text => 0,
    }
}

// The number of values of a label's field, or 0 where the field takes no label.
fn reach(field: Field) -> u32
    ensures { result ≡ reach_of field }
{
    match field {
        Field::Dr => 0,
        Field::Sr => 0,
        Field::RegOrImm => 0,
        Field::Offset6 => 0,
        Field::Near9 => OFFSET9,
        Field::Near11 => OFFSET11,
        Field::Trap => 0,
        Field::Word => 0,
        Field::Fill => ADDRESSES,
        Field::Name => ADDRESSES,
        Field::Text => 0,
    }
}

// Whether the field takes a string.
fn takes_text(field: Field) -> bool
    ensures { result ≡ texts_of field }
{
    match field {
        Field::Dr => false,
        Field::Sr => false,
        Field::RegOrImm => false,
        Field::Offset6 => false,
        Field::Near9 => false,
        Field::Near11 => false,
        Field::Trap => false,
        Field::Word => false,
        Field::Fill => false,
        Field::Name => false,
        Field::Text => true,
    }
}

// How far the end is from the start.
fn gap(start: usize, end: usize) -> usize
    ensures { result ≡ end - start }
{
    end.saturating_sub(start)
}

// A refusal with this number at the token.
fn refused(number: u16, t: Lexeme) -> Result<Given, Fault>
    ensures { result ≡ Err (fault number t.start t.end) }
{
    Err(Fault {
        number,
        start: t.start,
        end: t.end,
    })
}

// What is given, with n more in the word, up to the token's end.
fn took(g: Given, n: u32, t: Lexeme) -> Result<Given, Fault>
    requires { (g.bits ≤ 268435456) × (n ≤ 33554432) }
    ensures { result ≡ Ok (add_to g (bits n) t.end) }
{
    Ok(Given {
        bits: g.bits + n,
        reach: g.reach,
        label_start: g.label_start,
        label_end: g.label_end,
        text_start: g.text_start,
        text_end: g.text_end,
        stop: t.end,
    })
}

// A register as an operand.
fn register_operand(g: Given, field: Field, other: u16, t: Lexeme) -> Result<Given, Fault>
    requires { g.bits ≤ 268435456 }
    ensures { Adds g result (stepped g (operand (field_of field) other (token_in (register t.value) (span t.start t.end))) t.end) }
{
    let m = multiplier(field);
    if m == 0 {
        return refused(other, t);
    }
    let n = t.value as u32 * m;
    took(g, n, t)
}

// A number is at most its bound.
fn within(value: u16, bound: u16) -> bool
    ensures { result ≡ leb value bound }
{
    value <= bound
}

// A number as an operand.
fn number_operand(g: Given, field: Field, other: u16, t: Lexeme) -> Result<Given, Fault>
    requires { g.bits ≤ 268435456 }
    ensures { Adds g result (stepped g (operand (field_of field) other (token_in (number (num_of t.sort t.value)) (span t.start t.end))) t.end) }
{
    let range = range_of(field);
    if range.modulus == 0 {
        return refused(other, t);
    }
    let value = t.value as u32;
    if t.sort == lex_token::NEGATIVE {
        if within(t.value, range.low) {
            let n = raise(field) + (range.modulus - value) % range.modulus;
            return took(g, n, t);
        }
        return refused(base_refusals::OPERAND_RANGE, t);
    }
    if within(t.value, range.high) {
        let n = raise(field) + value;
        return took(g, n, t);
    }
    refused(base_refusals::OPERAND_RANGE, t)
}

// A label as an operand.
fn label_operand(g: Given, field: Field, other: u16, t: Lexeme) -> Result<Given, Fault>
    ensures { (w : List ℕ) → find w instructions ≡ none → length w ≡ t.end - t.start → Adds g result (stepped g (operand (field_of field) other (token_in (word w) (span t.start t.end))) t.end) }
{
    let m = reach(field);
    if m == 0 {
        return refused(other, t);
    }
    if gap(t.start, t.end) <= base_capacities::NAME_BYTES {
        return Ok(Given {
            bits: g.bits,
            reach: m,
            label_start: t.start,
            label_end: t.end,
            text_start: g.text_start,
            text_end: g.text_end,
            stop: t.end,
        });
    }
    refused(base_refusals::NAME_TOO_LONG, t)
}

// A string as an operand.
fn text_operand(g: Given, field: Field, other: u16, t: Lexeme) -> Result<Given, Fault>
    ensures { (c : List ℕ) → Adds g result (stepped g (operand (field_of field) other (token_in (text c) (span t.start t.end))) t.end) }
{
    if takes_text(field) {
        return Ok(Given {
            bits: g.bits,
            reach: g.reach,
            label_start: g.label_start,
            label_end: g.label_end,
            text_start: t.start,
            text_end: t.end,
            stop: t.end,
        });
    }
    refused(other, t)
}

// A token that may not stand where it is: its own refusal, or else this number.
pub fn misplaced(t: Lexeme, other: u16) -> Result<Given, Fault>
    ensures { result ≡ misplaced_at t other }
{
    if t.sort == lex_token::FAULT {
        return refused(t.value, t);
    }
    refused(other, t)
}

// The operand at a place.
pub fn operand_at(src: &[u8], at: usize, g: Given, field: Field, other: u16) -> Result<Given, Fault>
    requires { g.bits ≤ 268435456 }
    ensures { Adds g result (operand_step src.now (field_of field) other g at) }
{
    let t = next_lexeme(src, at);
    if t.sort == lex_token::REGISTER {
        return register_operand(g, field, other, t);
    }
    if t.sort <= lex_token::NEGATIVE {
        return number_operand(g, field, other, t);
    }
    if t.sort == lex_token::LABEL {
        return label_operand(g, field, other, t);
    }
    if t.sort == lex_token::STRING {
        return text_operand(g, field, other, t);
    }
    misplaced(t, other)
}
