// Names of labels: one label token in upper case, at most 64 bytes. Most names are told by their bytes; the lexer reads the others.
#![tactic(auto)]

ghost use Rattle.std.specs.Prelude.{◌≡◌, true, map};
ghost use Rattle.rules.specs.Base.{same};
ghost use Rattle.rules.specs.Tokens.{upper, next_token};
ghost use Rattle.rules.specs.Objects.{good_name};
ghost use Rattle.lex_token.specs.Coded.{coded};
ghost use Rattle.object_names.specs.Plain.{capital, beginning, all_capital, plain, CapitalFront};
ghost use Rattle.object_names.specs.Whole.{is_label, label_kind, whole_label};

use lex_reserved::Ident;
use lex_token::{Next, Token};

// A word that is not reserved.
fn is_free(ident: Ident) -> bool
    ensures { result ≡ is_label ident }
{
    matches!(ident, Ident::Label)
}

fn label_kind(token: Token) -> bool
    ensures { result ≡ label_kind token }
{
    match token {
        Token::Ident(ident) => is_free(ident),
        Token::Unsigned(_) => false,
        Token::Signed(_) => false,
        Token::Reg(_) => false,
        Token::Directive => false,
        Token::String => false,
        Token::Colon => false,
        Token::Comma => false,
        Token::NewLine => false,
    }
}

// The first token of the bytes is a label, and is all of them.
fn whole_label(name: &[u8]) -> bool
    ensures { result ≡ whole_label name.now (coded (next_token name.now 0)) }
{
    match lex::next_token(name, 0) {
        Next::Took { token, start, end } => label_kind(token) & (start == 0) & (end == name.len()),
        Next::End(_) => false,
        Next::Refused {
            number: _,
            start: _,
            end: _,
        } => false,
    }
}

// No byte is a small letter.
fn is_upper(name: &[u8]) -> bool
    ensures { result ≡ same name.now (map upper name.now) }
{
    name.iter().all(|b| *b == base_text::upper_case(*b))
}

// A capital letter, a digit or the underscore.
fn is_capital(b: u8) -> bool
    ensures { result ≡ capital b }
{
    ((b'A' <= b) & (b <= b'Z')) | ((b'0' <= b) & (b <= b'9')) | (b == b'_')
}

// A byte that begins a word in upper case and nothing else: R may begin a register, X a number.
fn begins_word(b: u8) -> bool
    ensures { result ≡ beginning b }
{
    (((b'A' <= b) & (b <= b'Z')) | (b == b'_')) & !(b == b'R') & !(b == b'X')
}

// How many bytes of a name are looked at in one step, and how many of all names.
const STEP: usize = 8;

const STRIDE: usize = 64;

// Every byte is a capital letter, a digit or the underscore. The loop has no exit, so that many are looked at at once.
fn capital_part(part: &[u8]) -> bool
    ensures { result ≡ all_capital part.now }
{
    let mut good = true;
    for b in part {
        good &= is_capital(*b);
    }
    good
}

// How many bytes at the front are all such, in steps of 64.
pub fn capital_front(names: &[u8]) -> usize
    ensures { CapitalFront names.now result }
{
    let mut i = 0;
    // A while: steps of 64 bytes, as long as so many are left.
    while STRIDE <= names.len() - i {
        let stop = i + STRIDE;
        if capital_part(&names[i..stop]) {
            i = stop;
        } else {
            return i;
        }
    }
    i
}

// The same of a name, step by step.
fn all_capital(name: &[u8]) -> bool
    ensures { result ≡ all_capital name.now }
{
    let mut i = 0;
    // A while: steps of 8 bytes, as long as so many are left.
    while STEP <= name.len() - i {
        let stop = i + STEP;
        if capital_part(&name[i..stop]) {
            i = stop;
        } else {
            return false;
        }
    }
    capital_part(&name[i..])
}

// A name that its bytes show to be a label: a word in upper case that is not reserved.
fn is_plain(name: &[u8]) -> bool
    ensures { result ≡ plain name.now }
{
    if name.len() == 0 {
        return false;
    }
    if begins_word(name[0]) {
        if all_capital(name) {
            if lex_reserved::LONGEST < name.len() {
                return true;
            }
            return is_free(lex_reserved::ident_of(name));
        }
        return false;
    }
    false
}

// The bytes are a good name.
pub fn is_label(name: &[u8]) -> bool
    ensures { result ≡ good_name name.now }
{
    if base_capacities::NAME_BYTES < name.len() {
        return false;
    }
    if is_plain(name) {
        return true;
    }
    whole_label(name) & is_upper(name)
}

// The same of bytes that are known to be capital letters, digits and underscores.
pub fn is_capital_label(name: &[u8]) -> bool
    requires { all_capital name.now ≡ true }
    ensures { result ≡ good_name name.now }
{
    if name.len() <= lex_reserved::LONGEST {
        return is_label(name);
    }
    if name.len() <= base_capacities::NAME_BYTES {
        if begins_word(name[0]) {
            return true;
        }
        return is_label(name);
    }
    is_label(name)
}
