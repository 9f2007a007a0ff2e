// Replays token vectors against the lexer, writes those that differ, and at the end how many were replayed.
#![tactic(auto)]

use base_refusals::Fault;
use lc3_input::STDOUT_FILENO;
use lex_literals::StringChar;
use lex_reserved::Ident;
use lex_token::{Next, Token};
use std::fs::File;
use std::num::{wrapping_add_u16, wrapping_add_usize};

// An answer of a vector, as data/README.md says: its sort and value, its span, and how many bytes its text has with their checksum.
#[derive(Clone, Copy, PartialEq, Eq)]
struct Row {
    sort: u8,
    value: u16,
    start: usize,
    end: usize,
    count: usize,
    sum: u16,
}

// A text's length and checksum.
#[derive(Clone, Copy)]
struct Sum {
    count: usize,
    one: u16,
    two: u16,
}

// Two bytes of the data, the low one first.
fn two_at(data: &[u8], at: usize) -> usize {
    usize::from(base_text::byte_at(data, at))
        | (usize::from(base_text::byte_at(data, wrapping_add_usize(at, 1))) << 8)
}

fn four_at(data: &[u8], at: usize) -> usize {
    two_at(data, at) | (two_at(data, wrapping_add_usize(at, 2)) << 16)
}

fn value_at(data: &[u8], at: usize) -> u16 {
    u16::from(base_text::byte_at(data, at))
        | (u16::from(base_text::byte_at(data, wrapping_add_usize(at, 1))) << 8)
}

// A row of the data.
fn row_at(data: &[u8], at: usize) -> Row {
    Row {
        sort: base_text::byte_at(data, at),
        value: value_at(data, wrapping_add_usize(at, 1)),
        start: four_at(data, wrapping_add_usize(at, 3)),
        end: four_at(data, wrapping_add_usize(at, 7)),
        count: four_at(data, wrapping_add_usize(at, 11)),
        sum: value_at(data, wrapping_add_usize(at, 15)),
    }
}

fn added(s: Sum, b: u8) -> Sum {
    let one = wrapping_add_u16(s.one, u16::from(b));
    Sum {
        count: wrapping_add_usize(s.count, 1),
        one,
        two: wrapping_add_u16(s.two, one),
    }
}

// The bytes of a part in upper case.
fn text_sum(part: &[u8]) -> Sum {
    let mut sum = Sum {
        count: 0,
        one: 0,
        two: 0,
    };
    for b in part {
        sum = added(sum, base_text::upper_case(*b));
    }
    sum
}

// The characters of a string from `at` on.
fn string_sum(src: &[u8], at: usize) -> Sum {
    let mut sum = Sum {
        count: 0,
        one: 0,
        two: 0,
    };
    let mut i = at;
    for _ in 0..400000 {
        match lex_literals::string_char(src, i) {
            StringChar::Char { byte, next } => {
                sum = added(sum, byte);
                i = next;
            }
            StringChar::Done => {
                return sum;
            }
        }
    }
    sum
}

fn plain_row(sort: u8, value: u16, start: usize, end: usize) -> Row {
    Row {
        sort,
        value,
        start,
        end,
        count: 0,
        sum: 0,
    }
}

fn text_row(sort: u8, value: u16, start: usize, end: usize, text: Sum) -> Row {
    Row {
        sort,
        value,
        start,
        end,
        count: text.count,
        sum: text.two,
    }
}

fn ident_row(src: &[u8], ident: Ident, start: usize, end: usize) -> Row {
    let text = text_sum(lex::label_text(src, start, end));
    match ident {
        Ident::Reserved(code) => text_row(4, u16::from(code), start, end, text),
        Ident::Label => text_row(5, 0, start, end, text),
    }
}

fn token_row(src: &[u8], token: Token, start: usize, end: usize) -> Row {
    let next = wrapping_add_usize(start, 1);
    match token {
        Token::Unsigned(n) => plain_row(1, n, start, end),
        Token::Signed(n) => plain_row(2, n, start, end),
        Token::Reg(n) => plain_row(3, u16::from(n), start, end),
        Token::Ident(ident) => ident_row(src, ident, start, end),
        Token::Directive => text_row(6, 0, start, end, text_sum(lex::label_text(src, next, end))),
        Token::String => text_row(7, 0, start, end, string_sum(src, next)),
        Token::Colon => plain_row(8, 0, start, end),
        Token::Comma => plain_row(9, 0, start, end),
        Token::NewLine => plain_row(10, 0, start, end),
    }
}

fn next_row(src: &[u8], next: Next) -> Row {
    match next {
        Next::Took { token, start, end } => token_row(src, token, start, end),
        Next::End(at) => plain_row(0, 0, at, at),
        Next::Refused { number, start, end } => plain_row(11, number, start, end),
    }
}

fn verdict_row(lexed: Result<(), Fault>) -> Row {
    match lexed {
        Ok(()) => plain_row(12, 0, 0, 0),
        Err(fault) => plain_row(11, fault.number, fault.start, fault.end),
    }
}

// Whether the lexer answers all of a vector's rows, which begin at `at`.
fn rows_right(data: &[u8], at: usize, rows: usize, src: &[u8]) -> bool {
    let mut from = at;
    let mut place: usize = 0;
    for _ in 0..rows {
        let got = next_row(src, lex::next_token(src, place));
        if got != row_at(data, from) {
            return false;
        }
        place = got.end;
        from = wrapping_add_usize(from, 17);
    }
    true
}

// Copies so many bytes of the data.
fn copy(data: &[u8], from: usize, src: &mut [u8], at: usize, count: usize) -> usize {
    if src.len() <= at {
        return at;
    }
    let n = count.min(src.len() - at);
    for (j, b) in src[at..at + n].iter_mut().enumerate() {
        *b = base_text::byte_at(data, wrapping_add_usize(from, j));
    }
    at + n
}

// Whether a vector's source is answered as its rows and its verdict say.
fn vector_right(data: &[u8], at: usize, rows: usize, src: &[u8]) -> bool {
    let verdict = past_rows(at, rows);
    (verdict_row(lex_source::first_refusal(src)) == row_at(data, verdict))
        && rows_right(data, at, rows, src)
}

// How a vector begins: the lengths of its source's parts, and how many rows it has.
#[derive(Clone, Copy)]
struct Header {
    head: usize,
    byte: u8,
    count: usize,
    tail: usize,
    rows: usize,
}

fn header_at(data: &[u8], at: usize) -> Header {
    Header {
        head: two_at(data, at),
        byte: base_text::byte_at(data, wrapping_add_usize(at, 2)),
        count: four_at(data, wrapping_add_usize(at, 3)),
        tail: two_at(data, wrapping_add_usize(at, 7)),
        rows: two_at(data, wrapping_add_usize(at, 9)),
    }
}

// Writes a vector's source, whose parts begin at `at`, and answers its length.
fn write_source(data: &[u8], at: usize, header: Header, src: &mut [u8]) -> usize {
    let one = copy(data, at, src, 0, header.head);
    let two = test_support::repeat(src, one, header.byte, header.count);
    copy(
        data,
        wrapping_add_usize(at, header.head),
        src,
        two,
        header.tail,
    )
}

// Where the verdict stands after so many rows.
fn past_rows(at: usize, rows: usize) -> usize {
    wrapping_add_usize(at, wrapping_add_usize(rows << 4, rows))
}

// Replays the vector at a place, and answers where the next one begins.
fn replay(data: &[u8], at: usize, src: &mut [u8], number: u64) -> usize {
    let header = header_at(data, at);
    let begin = wrapping_add_usize(at, 11);
    let end = write_source(data, begin, header, src);
    let answers = wrapping_add_usize(begin, wrapping_add_usize(header.head, header.tail));
    if end <= src.len() {
        if vector_right(data, answers, header.rows, &src[0..end]) {
            return wrapping_add_usize(past_rows(answers, header.rows), 17);
        }
    }
    io::write_all(STDOUT_FILENO, &test_support::difference(number));
    wrapping_add_usize(past_rows(answers, header.rows), 17)
}

// How many vectors are replayed at most.
const MOST_VECTORS: u64 = 100000;

// Replays all vectors and answers how many there are.
fn replay_all(data: &[u8], src: &mut [u8]) -> u64 {
    let mut at: usize = 0;
    for number in 0..MOST_VECTORS {
        if data.len() <= at {
            return number;
        }
        at = replay(data, at, src, number);
    }
    MOST_VECTORS
}

// How many bytes the file has at most, and a source.
const FILE: usize = 262144;

const SOURCE: usize = 262146;

// Replays the vectors of an open file, read into `data`, and answers how many there are.
fn replay_open(mut file: File, data: &mut [u8; FILE], src: &mut [u8; SOURCE]) -> u64 {
    let got = lc3_input::fill(&mut file, data);
    let read: &[u8] = data;
    replay_all(&read[..got], src)
}

// Replays the vectors of an open file, and writes how many there are.
fn replay_file(file: File) {
    let mut data = [0u8; FILE];
    let mut src = [0u8; SOURCE];
    let count = replay_open(file, &mut data, &mut src);
    io::print_decimal(STDOUT_FILENO, count);
    io::write_all(STDOUT_FILENO, b"\n");
}

fn main(rt: HostRuntime) {
    let path = "vectors.bin";
    match File::open(&rt, path) {
        Ok(file) => replay_file(file),
        Err(error) => lc3_input::tell_unopened(&rt, path, error),
    }
}
