// The lexer: the next token of a source from a place on, as four numbers for whoever reads statements, as an enum for every other caller.
#![tactic(auto)]

ghost use Rattle.std.specs.Prelude.{◌≡◌, true, false, ◌+◌, ◌≤◌, ◌<◌, length, get_or};
ghost use Rattle.rules.specs.Tokens.{letter, space, word_at, after_r, after_x, after_hash, after_minus, after_quote, token_at, next_token};
ghost use Rattle.base_text.specs.Runs.{from};
ghost use Rattle.lex_token.specs.Coded.{coded, told};
ghost use Rattle.lex_token.specs.Flat.{flat_next};
ghost use Rattle.lex_token.specs.Meant.{meant};
ghost use Rattle.lex.specs.Label.{label_text};
ghost use Rattle.lex.specs.Sorts.{Stands};
ghost use Rattle.lex.specs.Ways.{short_register, after_return, after_semicolon, after_other};

use base_refusals::{INVALID_NUMERIC, INVALID_SYMBOL, STR_LIT_TOO_BIG, UNCLOSED_STR_LIT};
use base_text::Class;
use lex_literals::Scanned;
use lex_reserved::Ident;
use lex_token::{
    COLON, COMMA, DIRECTIVE, END, FAULT, LABEL, Lexeme, NEWLINE, Next, REGISTER, RESERVED, STRING,
    flat,
};

// The most characters of a string.
const STRING_CHARS: usize = 65534;

// How many hexadecimal digits there are.
const HEX_DIGITS: u8 = 16;

// A word: reserved or a label.
fn lex_word(src: &[u8], start: usize) -> Lexeme
    requires { start ≤ length src.now }
    ensures { result ≡ flat_next (told src.now start (word_at (from src.now start))) }
{
    let end = base_text::run_end(src, start, Class::Word);
    let ident = lex_reserved::ident_of(&src[start..end]);
    match ident {
        Ident::Reserved(code) => flat(RESERVED, u16::from(code), start, end),
        Ident::Label => flat(LABEL, 0, start, end),
    }
}

// The digit of the last register, and the number that stands for none.
const LAST_REGISTER: u8 = b'7';

const NO_REGISTER: u8 = 8;

// The number of a register that is one digit at a place, with no word character behind it; NO_REGISTER of anything else.
fn short_register(src: &[u8], at: usize) -> u8
    requires { at ≤ length src.now }
    ensures { result ≡ short_register src.now at }
{
    let digit = base_text::byte_at(src, at);
    if digit < b'0' {
        return NO_REGISTER;
    }
    if LAST_REGISTER < digit {
        return NO_REGISTER;
    }
    if base_text::is_word(base_text::byte_at(src, at + 1)) {
        return NO_REGISTER;
    }
    digit - b'0'
}

// R and digits, where no more word characters follow; else a word. One digit is the frequent case.
fn lex_r(src: &[u8], start: usize) -> Lexeme
    requires { start < length src.now }
    ensures { result ≡ flat_next (told src.now start (after_r (get_or src.now start 0) (from src.now (start + 1)))) }
{
    let next = start + 1;
    let number = short_register(src, next);
    if number < NO_REGISTER {
        return flat(REGISTER, u16::from(number), start, start + 2);
    }
    let end = base_text::run_end(src, next, Class::Digit);
    if end <= next {
        return lex_word(src, start);
    }
    if base_text::is_word(base_text::byte_at(src, end)) {
        return lex_word(src, start);
    }
    lex_token::lex_reg(src, start)
}

// x and a minus, or x and a hexadecimal digit; else a word.
fn lex_x(src: &[u8], start: usize) -> Lexeme
    requires { start < length src.now }
    ensures { result ≡ flat_next (told src.now start (after_x (get_or src.now start 0) (from src.now (start + 1)))) }
{
    let b = base_text::byte_at(src, start + 1);
    if b == b'-' {
        return lex_token::lex_signed_hex(src, start);
    }
    if base_text::digit_value(b) < HEX_DIGITS {
        return lex_token::lex_unsigned_hex(src, start);
    }
    lex_word(src, start)
}

// #-, or #; from two hashes on always an error.
fn lex_hash(src: &[u8], start: usize) -> Lexeme
    requires { start < length src.now }
    ensures { result ≡ flat_next (told src.now start (after_hash (from src.now (start + 1)))) }
{
    let next = start + 1;
    let b = base_text::byte_at(src, next);
    if b == b'-' {
        return lex_token::lex_signed_dec(src, start, 2);
    }
    if b == b'#' {
        let h = base_text::run_end(src, next, Class::Hash);
        if base_text::byte_at(src, h) == b'-' {
            return flat(
                FAULT,
                INVALID_NUMERIC,
                start,
                base_text::run_end(src, h + 1, Class::Word),
            );
        }
        return flat(
            FAULT,
            INVALID_NUMERIC,
            start,
            base_text::run_end(src, h, Class::Word),
        );
    }
    lex_token::lex_unsigned_dec(src, start, 1)
}

// A minus; with a hash after it always an error.
fn lex_minus(src: &[u8], start: usize) -> Lexeme
    requires { start < length src.now }
    ensures { result ≡ flat_next (told src.now start (after_minus (from src.now (start + 1)))) }
{
    let next = start + 1;
    if base_text::byte_at(src, next) == b'#' {
        let h = base_text::run_end(src, next, Class::Hash);
        return flat(
            FAULT,
            INVALID_NUMERIC,
            start,
            base_text::run_end(src, h, Class::Word),
        );
    }
    lex_token::lex_signed_dec(src, start, 1)
}

// A string.
fn lex_str_literal(src: &[u8], start: usize) -> Lexeme
    requires { start < length src.now }
    ensures { result ≡ flat_next (told src.now start (after_quote (from src.now (start + 1)))) }
{
    let next = start + 1;
    let scanned = lex_literals::scan_string(src, next);
    match scanned {
        Scanned::Closed { count, end } => {
            if count <= STRING_CHARS {
                flat(STRING, 0, start, end)
            } else {
                flat(FAULT, STR_LIT_TOO_BIG, start, end)
            }
        }
        Scanned::Open(end) => flat(FAULT, UNCLOSED_STR_LIT, start, end),
    }
}

// A carriage return: a newline where a line feed follows, else no symbol.
fn lex_return(src: &[u8], start: usize) -> Lexeme
    requires { start < length src.now }
    ensures { result ≡ flat_next (told src.now start (after_return (from src.now (start + 1)))) }
{
    let next = start + 1;
    if base_text::byte_at(src, next) == b'\n' {
        return flat(NEWLINE, 0, start, start + 2);
    }
    flat(FAULT, INVALID_SYMBOL, start, next)
}

// A comment is passed over: after it stands the line feed or the end of the source.
fn lex_comment(src: &[u8], start: usize) -> Lexeme
    requires { start < length src.now }
    ensures { result ≡ flat_next (told src.now start (after_semicolon (from src.now (start + 1)))) }
{
    let end = base_text::run_end(src, start + 1, Class::Line);
    if end < src.len() {
        return flat(NEWLINE, 0, end, end + 1);
    }
    flat(END, 0, end, end)
}

// A token that begins with a letter.
fn lex_letter(src: &[u8], start: usize) -> Lexeme
    requires { (start < length src.now) × (letter (get_or src.now start 0) ≡ true) }
    ensures { result ≡ flat_next (told src.now start (token_at (get_or src.now start 0) (from src.now (start + 1)))) }
{
    let b = base_text::upper_case(src[start]);
    if b == b'R' {
        return lex_r(src, start);
    }
    if b == b'X' {
        return lex_x(src, start);
    }
    lex_word(src, start)
}

// A token that begins with no letter, digit, hash or minus.
fn lex_other(src: &[u8], start: usize) -> Lexeme
    requires { (start < length src.now) × (space (get_or src.now start 0) ≡ false) }
    ensures { result ≡ flat_next (told src.now start (after_other (get_or src.now start 0) (from src.now (start + 1)))) }
{
    let b = src[start];
    let next = start + 1;
    if b == b',' {
        return flat(COMMA, 0, start, next);
    }
    if b == b'\n' {
        return flat(NEWLINE, 0, start, next);
    }
    if b == b';' {
        return lex_comment(src, start);
    }
    if b == b'.' {
        return flat(
            DIRECTIVE,
            0,
            start,
            base_text::run_end(src, next, Class::Word),
        );
    }
    if b == b'"' {
        return lex_str_literal(src, start);
    }
    if b == b'\r' {
        return lex_return(src, start);
    }
    if b == b':' {
        return flat(COLON, 0, start, next);
    }
    flat(FAULT, INVALID_SYMBOL, start, next)
}

// The token that begins at a place where no space is.
fn token_at(src: &[u8], start: usize) -> Lexeme
    requires { (start < length src.now) × (space (get_or src.now start 0) ≡ false) }
    ensures { result ≡ flat_next (told src.now start (token_at (get_or src.now start 0) (from src.now (start + 1)))) }
{
    let b = src[start];
    if base_text::is_letter(b) {
        return lex_letter(src, start);
    }
    if base_text::is_digit(b) {
        return lex_token::lex_unsigned_dec(src, start, 0);
    }
    if b == b'#' {
        return lex_hash(src, start);
    }
    if b == b'-' {
        return lex_minus(src, start);
    }
    lex_other(src, start)
}

// The next token of the source from `at` on, past spaces, tabs and comments, as four numbers.
pub fn lexeme_at(src: &[u8], at: usize) -> Lexeme
    ensures { result ≡ flat_next (coded (next_token src.now at)) }
{
    let start = base_text::run_end(src, at, Class::Space);
    if start < src.len() {
        return token_at(src, start);
    }
    flat(END, 0, start, start)
}

// The same, with what the four numbers mean in the rules. Whoever reads statements tests numbers.
pub fn next_lexeme(src: &[u8], at: usize) -> Lexeme
    ensures { Stands src.now at result }
{
    lexeme_at(src, at)
}

// The next token of the source from `at` on.
pub fn next_token(src: &[u8], at: usize) -> Next
    ensures means { meant src.now result ≡ next_token src.now at }
    ensures tells { result ≡ coded (next_token src.now at) }
{
    lex_token::next_of(lexeme_at(src, at))
}

// A label token's text, as the part of the source where it stands; empty where the span lies not in the source.
pub fn label_text(src: &[u8], start: usize, end: usize) -> &[u8]
    ensures { result.now ≡ label_text src.now start end }
{
    if start <= end {
        if end <= src.len() {
            return &src[start..end];
        }
        return &src[..0];
    }
    &src[..0]
}
