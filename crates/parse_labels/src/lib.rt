// What stands before a statement's instruction or directive: newlines, and labels each with an optional colon.
#![tactic(auto)]

ghost use Rattle.std.specs.Prelude.{◌≡◌, ◌-◌};
ghost use Rattle.rules.specs.Statements.{past_colon, past_lines};
ghost use Rattle.base_text.specs.Runs.{run_end};
ghost use Rattle.base_text.specs.declared.Class.TheVariants.{Space};
ghost use Rattle.parse_labels.specs.Walk.{after_line, leads_line, label_here, label_from, is_label, is_before, Walked, Heads};

use base_text::Class;
use lex::next_lexeme;
use lex_token::Lexeme;

// A label token of at most 64 bytes, or none.
#[derive(Clone, Copy)]
pub enum Label {
    At { start: usize, end: usize },
    Nothing,
}

// A label, and where to look for the next one.
#[derive(Clone, Copy)]
pub enum NextLabel {
    Label {
        start: usize,
        end: usize,
        next: usize,
    },
    Done,
}

// Where labels end: the token that stands there, and whether there are labels at all.
#[derive(Clone, Copy)]
pub struct Walk {
    pub token: Lexeme,
    pub labelled: bool,
}

// A byte that a newline may begin with, or a comment before it.
fn leads_line(b: u8) -> bool
    ensures { result ≡ leads_line b }
{
    (b == b'\n') | (b == b'\r') | (b == b';')
}

// Past a newline, where one stands. A token is looked for only where its first byte leads to one.
fn after_line(src: &[u8], at: usize) -> usize
    ensures { result ≡ after_line src.now at }
{
    let start = base_text::run_end(src, at, Class::Space);
    if leads_line(base_text::byte_at(src, start)) {
        let t = next_lexeme(src, start);
        if t.sort == lex_token::NEWLINE {
            return t.end;
        }
        return at;
    }
    at
}

// Past an optional colon, which is known by its byte.
fn past_colon(src: &[u8], at: usize) -> usize
    ensures { result ≡ past_colon src.now at }
{
    let colon = base_text::run_end(src, at, Class::Space);
    if base_text::byte_at(src, colon) == b':' {
        return colon + 1;
    }
    at
}

// Past any newlines.
pub fn past_lines(src: &[u8], at: usize) -> usize
    ensures { result ≡ past_lines src.now at }
{
    let mut i = at;
    // A while: a newline may have two bytes.
    while i < src.len() {
        let next = after_line(src, i);
        if next == i {
            return i;
        }
        i = next;
    }
    i
}

// How far the end is from the start.
fn gap(start: usize, end: usize) -> usize
    ensures { result ≡ end - start }
{
    end.saturating_sub(start)
}

// A token that is a label of at most 64 bytes.
fn is_label(t: Lexeme) -> bool
    ensures { result ≡ is_label t }
{
    (t.sort == lex_token::LABEL) & (gap(t.start, t.end) <= base_capacities::NAME_BYTES)
}

// The label token at a place.
fn label_here(src: &[u8], at: usize) -> Label
    ensures { result ≡ label_here src.now at }
{
    let t = next_lexeme(src, at);
    if is_label(t) {
        return Label::At {
            start: t.start,
            end: t.end,
        };
    }
    Label::Nothing
}

// The first label from a place on, past newlines, and where to look for the next.
pub fn next_label(src: &[u8], at: usize) -> NextLabel
    ensures { result ≡ label_from src.now at }
{
    let place = past_lines(src, at);
    match label_here(src, place) {
        Label::At { start, end } => NextLabel::Label {
            start,
            end,
            next: past_colon(src, end),
        },
        Label::Nothing => NextLabel::Done,
    }
}

// Where the first token behind newlines begins, past spaces. Newlines are walked only where one is led to.
fn first_start(src: &[u8], at: usize) -> usize
    ensures { result ≡ run_end Space src.now (past_lines src.now at) }
{
    let start = base_text::run_end(src, at, Class::Space);
    if leads_line(base_text::byte_at(src, start)) {
        let place = past_lines(src, at);
        return base_text::run_end(src, place, Class::Space);
    }
    start
}

// The same as `next_label`, where the statement after the labels is known to begin at `head`: what stands before it and is no newline is a label, which is as long as its word characters. No word is looked up again.
pub fn label_before(src: &[u8], at: usize, head: usize) -> NextLabel
    requires { Heads src.now at head }
    ensures { result ≡ label_from src.now at }
{
    let start = first_start(src, at);
    if head <= start {
        return NextLabel::Done;
    }
    let end = base_text::run_end(src, start, Class::Word);
    NextLabel::Label {
        start,
        end,
        next: past_colon(src, end),
    }
}

// A token that stands before an instruction or directive: a label, a newline, or a colon where one may stand.
fn is_before(t: Lexeme, colon: bool) -> bool
    ensures { result ≡ is_before t colon }
{
    is_label(t) | (t.sort == lex_token::NEWLINE) | (colon & (t.sort == lex_token::COLON))
}

// The walk over the labels from a place on. Each token is read once, and a line feed is known by its byte; a colon may stand directly after a label and nowhere else.
pub fn walk_labels(src: &[u8], at: usize) -> Walk
    ensures { Walked src.now at result }
{
    let mut i = at;
    let mut labelled = false;
    let mut colon = false;
    // A loop: each token says where the next one is looked for.
    loop {
        let start = base_text::run_end(src, i, Class::Space);
        if base_text::byte_at(src, start) == b'\n' {
            colon = false;
            i = start + 1;
            continue;
        }
        let token = next_lexeme(src, start);
        if is_before(token, colon) {
            colon = is_label(token);
            labelled = labelled | colon;
            i = token.end;
        } else {
            return Walk { token, labelled };
        }
    }
}
