// One statement at a time, from the source.
#![tactic(auto)]

ghost use Rattle.std.specs.Prelude.{◌≡◌, ◌+◌, ◌≤◌, ◌<◌, length, Ok, Err, Some};
ghost use Rattle.rules.specs.Statements.{next_statement, statements};
ghost use Rattle.lex_token.specs.Meant.{part};
ghost use Rattle.base_refusals.specs.Refusals.{fault};
ghost use Rattle.parse.specs.Coded.{made, finished, count_due, code_step, is_bare, other_of, code_at, unfit_at, headless_at, coded_statement, coded_statements, source_statements, AllRead};

use base_refusals::{BAD_OPERAND, BAD_STATEMENT, Fault, NAME_TOO_LONG, NON_ASCII, SOURCE_TOO_LONG};
use base_text::Class;
use lex::next_lexeme;
use lex_token::Lexeme;
use parse_field::Given;
use parse_rows::{Op, Row};

// A statement: whether labels stand before it; what it does; its word or number as far as it is known; the number of values of its label operand's field (0: no label operand) and the
// label's place; its string's place; its span, from the instruction or directive to the last operand; and where the next statement begins.
// The labels themselves are not held: they are walked again from where the statement was looked for.
#[derive(Clone, Copy)]
pub struct Statement {
    pub labelled: bool,
    pub op: Op,
    pub bits: u32,
    pub reach: u32,
    pub label_start: usize,
    pub label_end: usize,
    pub text_start: usize,
    pub text_end: usize,
    pub start: usize,
    pub end: usize,
    pub next: usize,
}

// A refusal with this number at the token.
fn refused(number: u16, t: Lexeme) -> Result<Option<Statement>, Fault>
    ensures { result ≡ Err (fault number t.start t.end) }
{
    Err(Fault {
        number,
        start: t.start,
        end: t.end,
    })
}

// A token that cannot stand where it is: its own refusal, or 13.
fn unfit(t: Lexeme) -> Result<Option<Statement>, Fault>
    ensures { result ≡ unfit_at t }
{
    if t.sort == lex_token::FAULT {
        return refused(t.value, t);
    }
    refused(BAD_STATEMENT, t)
}

// A statement of what is given, from its first token up to its last operand.
fn read_of(
    labelled: bool,
    op: Op,
    head: Lexeme,
    g: Given,
    next: usize,
) -> Result<Option<Statement>, Fault>
    ensures { result ≡ Ok (Some (made labelled op head.start g next)) }
{
    Ok(Some(Statement {
        labelled,
        op,
        bits: g.bits,
        reach: g.reach,
        label_start: g.label_start,
        label_end: g.label_end,
        text_start: g.text_start,
        text_end: g.text_end,
        start: head.start,
        end: g.stop,
        next,
    }))
}

// After the operands a newline or the end of the source. A line feed is known by its byte.
fn line_end(
    src: &[u8],
    labelled: bool,
    op: Op,
    head: Lexeme,
    g: Given,
) -> Result<Option<Statement>, Fault>
    ensures { result ≡ finished src.now labelled op head.start g }
{
    let stop = base_text::run_end(src, g.stop, Class::Space);
    if base_text::byte_at(src, stop) == b'\n' {
        return read_of(labelled, op, head, g, stop + 1);
    }
    let t = next_lexeme(src, stop);
    if t.sort == lex_token::NEWLINE {
        return read_of(labelled, op, head, g, t.end);
    }
    if t.sort == lex_token::END {
        return read_of(labelled, op, head, g, t.end);
    }
    unfit(t)
}

// How many of a row's operands are read: none where they are left out.
fn operands_due(count: u16, bare: bool) -> u16
    ensures { result ≡ count_due count bare }
{
    if bare {
        return 0;
    }
    count
}

// The statement of the row at a place of the table, whose first token this is. The row goes by its number and is made here: a row that is handed on is copied, which costs more than making it.
fn row_read(
    src: &[u8],
    labelled: bool,
    code: usize,
    bare: bool,
    t: Lexeme,
    other: u16,
) -> Result<Option<Statement>, Fault>
    requires { code < 38 }
    ensures { result ≡ code_step src.now labelled code bare other t.start t.end }
{
    let full = parse_rows::row_at(code);
    let op = full.op;
    let first = full.first;
    let second = full.second;
    let third = full.third;
    let row = Row {
        op,
        base: full.base,
        count: operands_due(full.count, bare),
        first,
        second,
        third,
    };
    let g = parse_operands::operands_from(src, t.end, row, other)?;
    line_end(src, labelled, op, t, g)
}

// NOP's operand may be left out, before a newline or the end of the source.
fn is_bare(src: &[u8], code: usize, at: usize) -> bool
    ensures { result ≡ is_bare src.now code at }
{
    if code == parse_rows::NOP {
        let after = next_lexeme(src, at);
        return (after.sort == lex_token::NEWLINE) | (after.sort == lex_token::END);
    }
    false
}

// What a token that is no operand of its field is refused with: 13 after NOP, 14 elsewhere.
fn other_of(code: usize) -> u16
    ensures { result ≡ other_of code }
{
    if code == parse_rows::NOP {
        return BAD_STATEMENT;
    }
    BAD_OPERAND
}

// A directive's name: the part of the source after the dot.
fn name_after(src: &[u8], dot: usize, end: usize) -> &[u8]
    ensures { result.now ≡ part src.now (dot + 1) end }
{
    if src.len() <= dot {
        return &src[0..0];
    }
    let start = dot + 1;
    if src.len() < end {
        return &src[start..];
    }
    if end < start {
        return &src[0..0];
    }
    &src[start..end]
}

// The place in the table of the row that a token begins: a reserved word's code, a directive's place, or ROWS where there is none.
fn code_at(src: &[u8], t: Lexeme) -> usize
    ensures { result ≡ code_at src.now t }
{
    if t.sort == lex_token::RESERVED {
        return usize::from(t.value);
    }
    if t.sort == lex_token::DIRECTIVE {
        return parse_rows::directive_code(name_after(src, t.start, t.end));
    }
    parse_rows::ROWS
}

// What is answered where no row begins: 16 at a name, which is too long, the end where no labels stand before it, and else what a token that does not fit is refused with.
fn headless(labelled: bool, t: Lexeme) -> Result<Option<Statement>, Fault>
    ensures { result ≡ headless_at labelled t }
{
    if t.sort == lex_token::LABEL {
        return refused(NAME_TOO_LONG, t);
    }
    if t.sort == lex_token::END {
        if labelled {
            return refused(BAD_STATEMENT, t);
        }
        return Ok(None);
    }
    unfit(t)
}

// The statement that begins at a place or after it.
pub fn next_statement(src: &[u8], at: usize) -> Result<Option<Statement>, Fault>
    ensures { result ≡ coded_statement (next_statement src.now at) }
{
    let walk = parse_labels::walk_labels(src, at);
    let t = walk.token;
    let code = code_at(src, t);
    if code < parse_rows::ROWS {
        return row_read(
            src,
            walk.labelled,
            code,
            is_bare(src, code, t.end),
            t,
            other_of(code),
        );
    }
    headless(walk.labelled, t)
}

// The first refusal of a source's statements, where there is one.
pub fn first_refusal(src: &[u8]) -> Result<(), Fault>
    ensures { result ≡ coded_statements (statements src.now) }
{
    let mut at = 0;
    // A while: each statement says where the next one begins.
    while let Some(statement) = next_statement(src, at)? {
        at = statement.next;
    }
    Ok(())
}

// 12 in a source whose statements are read: the lexer's walk has nothing else to refuse, since every token is read with its statement.
pub fn check_bytes(src: &[u8]) -> Result<(), Fault>
    requires { (length src.now ≤ 262144) × AllRead src.now }
    ensures { result ≡ coded_statements (source_statements src.now) }
{
    let high = base_runs::ascii_end(src);
    if high < src.len() {
        return Err(Fault {
            number: NON_ASCII,
            start: high,
            end: high + 1,
        });
    }
    Ok(())
}

// The lexer's refusal of a source, or, where there is none, the answer of its statements.
fn lexed_first(src: &[u8], answer: Result<(), Fault>) -> Result<(), Fault>
    requires { answer ≡ coded_statements (statements src.now) }
    ensures { result ≡ coded_statements (source_statements src.now) }
{
    lex_source::first_refusal(src)?;
    answer
}

// The first refusal of a source: 11, 12, the lexer's over the whole source, then that of its statements.
// The statements are read first: accepted, they leave only 12; refused, the lexer's walk says whether a refusal of its own goes before.
pub fn check_source(src: &[u8]) -> Result<(), Fault>
    ensures { result ≡ coded_statements (source_statements src.now) }
{
    if base_capacities::SOURCE_BYTES < src.len() {
        return Err(Fault {
            number: SOURCE_TOO_LONG,
            start: 0,
            end: src.len(),
        });
    }
    let answer = first_refusal(src);
    match answer {
        Ok(()) => check_bytes(src),
        Err(_) => lexed_first(src, answer),
    }
}
