// Numbers and strings, read left to right in one walk.
#![tactic(auto)]

ghost use Rattle.std.specs.Prelude.{◌≡◌, false, ◌&&◌, ◌+◌, ◌≤◌, ◌<◌, ltb, length, get_or};
ghost use Rattle.rules.specs.Tokens.{escape};
ghost use Rattle.base_text.specs.Runs.{from};
ghost use Rattle.lex_literals.specs.Numbers.{stopped, number_from};
ghost use Rattle.lex_literals.specs.Strings.{line_stops, is_escape, behind, special, stands_for, scan, char_at};

// What reading a number finds, and where it stopped.
#[derive(Clone, Copy)]
pub enum Reading {
    // Its value; the word characters end here.
    Good { value: u16, end: usize },
    // No word character stands there.
    Empty,
    // The first wrong digit.
    Wrong(usize),
    // The digit that makes the number too large.
    Over(usize),
}

// The reading of a number that began at `at` and ends at `end`.
fn number_ends(at: usize, end: usize, value: u32) -> Reading
    requires { value ≤ 65535 }
    ensures { result ≡ stopped at end value }
{
    if end == at {
        return Reading::Empty;
    }
    Reading::Good {
        value: value as u16,
        end,
    }
}

// A digit of the base makes the number too large; a wrong digit never does.
fn overflows(v: u32, base: u32, bound: u32, more: u32) -> bool
    ensures { result ≡ (ltb v base && ltb bound more) }
{
    (v < base) & (bound < more)
}

// The number that the word characters from `at` write; at each character a wrong digit goes before an overflow.
pub fn read_number(src: &[u8], at: usize, base: u32, bound: u32) -> Reading
    requires { (base ≤ 16) × (bound ≤ 65535) }
    ensures { result ≡ number_from base bound at at 0 (from src.now at) }
{
    let mut value: u32 = 0;
    for i in at..src.len() {
        let b = src[i];
        let v = u32::from(base_text::digit_value(b));
        let more = value * base + v;
        if overflows(v, base, bound, more) {
            return Reading::Over(i);
        }
        if base <= v {
            if base_text::is_word(b) {
                return Reading::Wrong(i);
            }
            return number_ends(at, i, value);
        }
        value = more;
    }
    number_ends(at, at.max(src.len()), value)
}

// What reading a string after its quote finds.
#[derive(Clone, Copy)]
pub enum Scanned {
    // How many characters it has, and the place after its end quote.
    Closed { count: usize, end: usize },
    // The end of the line, before LF or CR LF.
    Open(usize),
}

// A line ends before this place: LF or CR LF stands there.
fn line_stops(src: &[u8], i: usize) -> bool
    requires { i < length src.now }
    ensures { result ≡ line_stops (get_or src.now i 0) (from src.now (i + 1)) }
{
    let b = src[i];
    if b == b'\n' {
        return true;
    }
    if b == b'\r' {
        let next = base_text::byte_at(src, i + 1);
        return next == b'\n';
    }
    false
}

// n, r, t, 0, a backslash and a quote.
fn is_escape(b: u8) -> bool
    ensures { result ≡ is_escape b }
{
    (b == b'n') | (b == b'r') | (b == b't') | (b == b'0') | (b == b'\\') | (b == b'"')
}

// How many characters a backslash and the byte behind it are: the backslash stays before a byte that makes no escape with it.
fn escape_size(b: u8) -> usize
    ensures { result ≡ length (escape b) }
{
    if is_escape(b) {
        return 1;
    }
    2
}

// What stands in a string where its plain bytes end.
#[derive(Clone, Copy)]
pub enum Special {
    // The line or the source ends here.
    Ends(usize),
    // The end quote.
    Quote,
    // So many characters, and the place behind them.
    Adds { count: usize, next: usize },
}

// What stands behind a backslash.
fn behind_backslash(src: &[u8], i: usize) -> Special
    ensures { result ≡ behind i (from src.now i) }
{
    if src.len() <= i {
        return Special::Ends(i);
    }
    if line_stops(src, i) {
        return Special::Ends(i);
    }
    let count = escape_size(src[i]);
    let next = i + 1;
    Special::Adds { count, next }
}

// What stands at a place of a string that no backslash stands before.
fn special_at(src: &[u8], i: usize) -> Special
    ensures { result ≡ special i (from src.now i) }
{
    if src.len() <= i {
        return Special::Ends(i);
    }
    if line_stops(src, i) {
        return Special::Ends(i);
    }
    let b = src[i];
    let next = i + 1;
    if b == b'"' {
        return Special::Quote;
    }
    if b == b'\\' {
        return behind_backslash(src, next);
    }
    Special::Adds { count: 1, next }
}

// The string after a quote: to its end quote, or to the line's end. Plain bytes are passed in runs.
pub fn scan_string(src: &[u8], at: usize) -> Scanned
    ensures { result ≡ scan false 0 at (from src.now at) }
{
    let mut count: usize = 0;
    let mut i = at;
    // A loop: what stands where a run ends says where to go on.
    loop {
        let stop = base_runs::plain_end(src, i);
        count += stop - i;
        match special_at(src, stop) {
            Special::Ends(end) => {
                return Scanned::Open(end);
            }
            Special::Quote => {
                return Scanned::Closed {
                    count,
                    end: stop + 1,
                };
            }
            Special::Adds { count: more, next } => {
                count += more;
                i = next;
            }
        }
    }
}

// A character of a string and the place of the next, or the end quote.
#[derive(Clone, Copy)]
pub enum StringChar {
    Char { byte: u8, next: usize },
    Done,
}

// The character that an escape's second byte stands for.
fn escape_value(b: u8) -> u8
    ensures { result ≡ stands_for b }
{
    if b == b'n' {
        return b'\n';
    }
    if b == b'r' {
        return b'\r';
    }
    if b == b't' {
        return b'\t';
    }
    if b == b'0' {
        return b'\0';
    }
    b
}

// The character at a place inside a string, after its quote.
pub fn string_char(src: &[u8], at: usize) -> StringChar
    ensures { result ≡ char_at at (from src.now at) }
{
    if src.len() <= at {
        return StringChar::Done;
    }
    let byte = src[at];
    let next = at + 1;
    if byte == b'"' {
        return StringChar::Done;
    }
    if byte == b'\\' {
        let e = base_text::byte_at(src, next);
        if is_escape(e) {
            return StringChar::Char {
                byte: escape_value(e),
                next: at + 2,
            };
        }
        return StringChar::Char { byte, next };
    }
    StringChar::Char { byte, next }
}
