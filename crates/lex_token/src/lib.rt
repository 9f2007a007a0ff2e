// Tokens, what looking for the next one answers, a token as four numbers, and the tokens that are numbers and registers.
#![tactic(auto)]

ghost use Rattle.std.specs.Prelude.{◌≡◌, ◌+◌, ◌≤◌, length};
ghost use Rattle.rules.specs.Tokens.{number_after, dec, dec_neg, hex, hex_neg, reg};
ghost use Rattle.base_text.specs.Runs.{from};
ghost use Rattle.lex_token.specs.Coded.{coded_as, signed_kind, form_of, told};
ghost use Rattle.lex_token.specs.Flat.{lexeme, flat_next, next_of, Narrow};

use base_refusals::{
    DOES_NOT_FIT_I16, DOES_NOT_FIT_U16, INVALID_DEC_EMPTY, INVALID_HEX, INVALID_HEX_EMPTY,
    INVALID_NUMERIC, INVALID_REG,
};
use base_text::Class;
use lex_literals::Reading;
use lex_reserved::Ident;

// A token. Its words and characters stand in the source at its span.
#[derive(Clone, Copy)]
pub enum Token {
    // A number as written without a sign.
    Unsigned(u16),
    // The size of a number as written with a minus, at most 32768.
    Signed(u16),
    // R0 to R7.
    Reg(u8),
    Ident(Ident),
    Directive,
    String,
    Colon,
    Comma,
    NewLine,
}

// What looking for the next token answers: the token from `start` up to `end`, where to look on from; the end of the source and its place; or a refusal with its number and place.
#[derive(Clone, Copy)]
pub enum Next {
    Took {
        token: Token,
        start: usize,
        end: usize,
    },
    End(usize),
    Refused {
        number: u16,
        start: usize,
        end: usize,
    },
}

// A token as four numbers: what sort of token it is, its value, and its place. The lexer hands tokens on in this form.
// The value is a number's size, a register's number, a reserved word's code or a refusal's number, else 0.
#[derive(Clone, Copy)]
pub struct Lexeme {
    pub sort: u8,
    pub value: u16,
    pub start: usize,
    pub end: usize,
}

// The sorts by name: a number, a number with a minus, a register, a label, a string, a reserved word, a directive, a colon, a comma, a newline, the end of the source, a refusal.
pub const NUMBER: u8 = 0;

pub const NEGATIVE: u8 = 1;

pub const REGISTER: u8 = 2;

pub const LABEL: u8 = 3;

pub const STRING: u8 = 4;

pub const RESERVED: u8 = 5;

pub const DIRECTIVE: u8 = 6;

pub const COLON: u8 = 7;

pub const COMMA: u8 = 8;

pub const NEWLINE: u8 = 9;

pub const END: u8 = 10;

pub const FAULT: u8 = 11;

pub fn flat(sort: u8, value: u16, start: usize, end: usize) -> Lexeme
    ensures { result ≡ lexeme sort value start end }
{
    Lexeme {
        sort,
        value,
        start,
        end,
    }
}

// The bases of numbers.
const DECIMAL: u32 = 10;

const HEXADECIMAL: u32 = 16;

// The largest number without a sign, and the size of the least with a minus.
const U16_MOST: u32 = 65535;

const I16_LEAST: u32 = 32768;

// The last register.
const LAST_REGISTER: u32 = 7;

// How a number is written: its base and bound, the refusals of a wrong digit, an overflow and no digit, and its sign.
#[derive(Clone, Copy)]
pub struct Form {
    pub base: u32,
    pub bound: u32,
    pub wrong: u16,
    pub over: u16,
    pub none: u16,
    pub signed: bool,
}

// The token at a lexeme's place.
fn took(token: Token, t: Lexeme) -> Next
    ensures { result ≡ Next.Took token t.start t.end }
{
    Next::Took {
        token,
        start: t.start,
        end: t.end,
    }
}

// The answer that a lexeme stands for.
pub fn next_of(t: Lexeme) -> Next
    requires { Narrow t }
    ensures { result ≡ next_of t }
{
    let sort = t.sort;
    match sort {
        NUMBER => took(Token::Unsigned(t.value), t),
        NEGATIVE => took(Token::Signed(t.value), t),
        REGISTER => took(Token::Reg(t.value as u8), t),
        LABEL => took(Token::Ident(Ident::Label), t),
        STRING => took(Token::String, t),
        RESERVED => took(Token::Ident(Ident::Reserved(t.value as u8)), t),
        DIRECTIVE => took(Token::Directive, t),
        COLON => took(Token::Colon, t),
        COMMA => took(Token::Comma, t),
        NEWLINE => took(Token::NewLine, t),
        END => Next::End(t.start),
        _ => Next::Refused {
            number: t.value,
            start: t.start,
            end: t.end,
        },
    }
}

fn number_took(signed: bool, value: u16, start: usize, end: usize) -> Lexeme
    ensures { result ≡ flat_next (coded_as (signed_kind signed value) start end) }
{
    if signed {
        return flat(NEGATIVE, value, start, end);
    }
    flat(NUMBER, value, start, end)
}

// A number in this form, after so many bytes of prefix.
fn lex_number(src: &[u8], start: usize, prefix: usize, form: Form) -> Lexeme
    requires { (start + prefix ≤ length src.now) × (form.base ≤ 16) × (form.bound ≤ 65535) }
    ensures { result ≡ flat_next (told src.now start (number_after prefix (form_of form) (from src.now (start + prefix)))) }
{
    let at = start + prefix;
    let reading = lex_literals::read_number(src, at, form.base, form.bound);
    match reading {
        Reading::Good { value, end } => number_took(form.signed, value, start, end),
        Reading::Empty => flat(FAULT, form.none, start, at),
        Reading::Wrong(stop) => flat(
            FAULT,
            form.wrong,
            start,
            base_text::run_end(src, stop, Class::Word),
        ),
        Reading::Over(stop) => flat(
            FAULT,
            form.over,
            start,
            base_text::run_end(src, stop, Class::Word),
        ),
    }
}

// 9 or #9: nothing or a hash, then decimal digits.
pub fn lex_unsigned_dec(src: &[u8], start: usize, prefix: usize) -> Lexeme
    requires { start + prefix ≤ length src.now }
    ensures { result ≡ flat_next (told src.now start (number_after prefix dec (from src.now (start + prefix)))) }
{
    let form = Form {
        base: DECIMAL,
        bound: U16_MOST,
        wrong: INVALID_NUMERIC,
        over: DOES_NOT_FIT_U16,
        none: INVALID_DEC_EMPTY,
        signed: false,
    };
    lex_number(src, start, prefix, form)
}

// -9 or #-9.
pub fn lex_signed_dec(src: &[u8], start: usize, prefix: usize) -> Lexeme
    requires { start + prefix ≤ length src.now }
    ensures { result ≡ flat_next (told src.now start (number_after prefix dec_neg (from src.now (start + prefix)))) }
{
    let form = Form {
        base: DECIMAL,
        bound: I16_LEAST,
        wrong: INVALID_NUMERIC,
        over: DOES_NOT_FIT_I16,
        none: INVALID_DEC_EMPTY,
        signed: true,
    };
    lex_number(src, start, prefix, form)
}

// x9.
pub fn lex_unsigned_hex(src: &[u8], start: usize) -> Lexeme
    requires { start + 1 ≤ length src.now }
    ensures { result ≡ flat_next (told src.now start (number_after 1 hex (from src.now (start + 1)))) }
{
    let form = Form {
        base: HEXADECIMAL,
        bound: U16_MOST,
        wrong: INVALID_HEX,
        over: DOES_NOT_FIT_U16,
        none: INVALID_HEX_EMPTY,
        signed: false,
    };
    lex_number(src, start, 1, form)
}

// x-9.
pub fn lex_signed_hex(src: &[u8], start: usize) -> Lexeme
    requires { start + 2 ≤ length src.now }
    ensures { result ≡ flat_next (told src.now start (number_after 2 hex_neg (from src.now (start + 2)))) }
{
    let form = Form {
        base: HEXADECIMAL,
        bound: I16_LEAST,
        wrong: INVALID_HEX,
        over: DOES_NOT_FIT_I16,
        none: INVALID_HEX_EMPTY,
        signed: true,
    };
    lex_number(src, start, 2, form)
}

// R and its digits, any number of leading zeros among them.
pub fn lex_reg(src: &[u8], start: usize) -> Lexeme
    requires { start + 1 ≤ length src.now }
    ensures { result ≡ flat_next (told src.now start (number_after 1 reg (from src.now (start + 1)))) }
{
    let at = start + 1;
    let reading = lex_literals::read_number(src, at, DECIMAL, LAST_REGISTER);
    match reading {
        Reading::Good { value, end } => flat(REGISTER, value, start, end),
        Reading::Empty => flat(FAULT, INVALID_REG, start, at),
        Reading::Wrong(stop) => flat(
            FAULT,
            INVALID_REG,
            start,
            base_text::run_end(src, stop, Class::Word),
        ),
        Reading::Over(stop) => flat(
            FAULT,
            INVALID_REG,
            start,
            base_text::run_end(src, stop, Class::Word),
        ),
    }
}
