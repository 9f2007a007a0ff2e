// What is due at a place of a statement: an instruction or a directive, a comma, the end of the line, or an operand by its field.
#![tactic(auto)]

ghost use Rattle.std.specs.Prelude.{◌≡◌, [], ◌∷◌, ℕ, ◌≤◌, length};
ghost use Rattle.rules.specs.Base.{nowhere};
ghost use Rattle.rules.specs.Statements.{labels_at};
ghost use Rattle.lex.specs.Sorts.{kind_by, Stands};
ghost use Rattle.parse_field.specs.Coded.{field_of};
ghost use Rattle.parse_rows.specs.Rows.{fields_by};
ghost use Rattle.view_due.specs.Wanted.{operand_or, due_from, row_of, due_behind, due_at, last_place, label_before};
ghost use Rattle.view_due.specs.Coded.{meant, onward, span_of, Coding};

use lex::next_lexeme;
use lex_token::Lexeme;
use parse_field::Field;
use parse_labels::NextLabel;
use parse_rows::Row;

// What is due: an instruction or a directive, the name of a directive, a comma, the end of the line, or what this field takes.
#[derive(Clone, Copy)]
pub enum Due {
    Statement,
    Directive,
    Comma,
    LineEnd,
    Operand(Field),
}

// What is due, or where the next operand stands.
#[derive(Clone, Copy)]
pub enum Onward {
    Found(Due),
    Next(usize),
}

// From `start` up to `end`; 0, 0 is no place.
#[derive(Clone, Copy)]
pub struct Place {
    pub start: usize,
    pub end: usize,
}

// The last operand of a row, and the end of the line behind it.
fn due_last(src: &[u8], field: Field, at: usize, place: usize) -> Due
    ensures { meant result ≡ due_from src.now (field_of field ∷ []) at place }
{
    let t = next_lexeme(src, at);
    if place <= t.start {
        return Due::Operand(field);
    }
    Due::LineEnd
}

// An operand that another follows, and the comma behind it.
fn due_operand(src: &[u8], field: Field, at: usize, place: usize) -> Onward
    ensures { onward result ≡ operand_or src.now (field_of field) at place }
{
    let t = next_lexeme(src, at);
    if place <= t.start {
        return Onward::Found(Due::Operand(field));
    }
    let comma = next_lexeme(src, t.end);
    if place <= comma.start {
        return Onward::Found(Due::Comma);
    }
    Onward::Next(comma.end)
}

// The last two operands of a row.
fn due_two(src: &[u8], first: Field, second: Field, at: usize, place: usize) -> Due
    ensures { meant result ≡ due_from src.now (field_of first ∷ field_of second ∷ []) at place }
{
    match due_operand(src, first, at, place) {
        Onward::Found(due) => due,
        Onward::Next(next) => due_last(src, second, next, place),
    }
}

// The last three.
fn due_three(src: &[u8], first: Field, second: Field, third: Field, at: usize, place: usize) -> Due
    ensures { meant result ≡ due_from src.now (field_of first ∷ field_of second ∷ field_of third ∷ []) at place }
{
    match due_operand(src, first, at, place) {
        Onward::Found(due) => due,
        Onward::Next(next) => due_two(src, second, third, next, place),
    }
}

// The operands of a row whose first token ends here.
fn due_row(src: &[u8], row: Row, at: usize, place: usize) -> Due
    ensures { meant result ≡ due_from src.now (fields_by row.count row.first row.second row.third) at place }
{
    let first = row.first;
    let second = row.second;
    let third = row.third;
    if row.count == 0 {
        return Due::LineEnd;
    }
    if row.count == 1 {
        return due_last(src, first, at, place);
    }
    if row.count == 2 {
        return due_two(src, first, second, at, place);
    }
    due_three(src, first, second, third, at, place)
}

// The place in the table of rows of the instruction or directive that this token is, or ROWS where it is none.
fn row_code(src: &[u8], t: Lexeme) -> usize
    ensures { (i : ℕ) → Stands src.now i t → Coding (row_of (kind_by src.now t.sort t)) result }
{
    if t.sort == lex_token::RESERVED {
        return usize::from(t.value);
    }
    if t.sort == lex_token::DIRECTIVE {
        if t.start < t.end {
            return parse_rows::directive_code(lex::label_text(src, t.start + 1, t.end));
        }
        return parse_rows::ROWS;
    }
    parse_rows::ROWS
}

// What is due behind the token that stands after the labels.
fn due_behind(src: &[u8], t: Lexeme, place: usize) -> Due
    ensures { (i : ℕ) → Stands src.now i t → meant result ≡ due_behind src.now (row_of (kind_by src.now t.sort t)) t.end place }
{
    let code = row_code(src, t);
    if code < parse_rows::ROWS {
        return due_row(src, parse_rows::row_at(code), t.end, place);
    }
    Due::Statement
}

// What is due at a place.
pub fn due_at(src: &[u8], place: usize) -> Due
    requires { place ≤ length src.now }
    ensures { meant result ≡ due_at src.now place }
{
    let first = view_places::line_start(src, place);
    let walk = parse_labels::walk_labels(src, first);
    let t = walk.token;
    if t.start < place {
        return due_behind(src, t, place);
    }
    if t.sort == lex_token::DIRECTIVE {
        return Due::Directive;
    }
    Due::Statement
}

// The last of the labels from here on.
fn last_label(src: &[u8], at: usize) -> Place
    ensures { span_of result ≡ last_place nowhere (labels_at src.now at) }
{
    let mut i = at;
    let mut start = 0;
    let mut end = 0;
    // A loop: each label says where the next is looked for, until there is none.
    loop {
        match parse_labels::next_label(src, i) {
            NextLabel::Label {
                start: from,
                end: to,
                next,
            } => {
                start = from;
                end = to;
                i = next;
            }
            NextLabel::Done => {
                return Place { start, end };
            }
        }
    }
}

// The last label before the statement of a place.
pub fn label_before(src: &[u8], place: usize) -> Place
    requires { place ≤ length src.now }
    ensures { span_of result ≡ label_before src.now place }
{
    last_label(src, view_places::line_start(src, place))
}
