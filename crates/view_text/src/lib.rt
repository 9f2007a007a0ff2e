// A line of text for a terminal, written from the front into a lent buffer; what does not fit is left out.
#![tactic(auto)]

ghost use Rattle.std.specs.Prelude.{◌≡◌, [], ◌∷◌, ◌-◌};
ghost use Rattle.view_text.specs.Put.{Put};
ghost use Rattle.view_text.specs.Texts.{spaces, gap, decimal, counted, hex_text, hex_text2};

// A byte; the place behind it.
pub fn put_byte(out: &mut [u8], at: usize, b: u8) -> usize
    ensures { Put out.old out.new at result (b ∷ []) }
{
    if at < out.len() {
        out[at] = b;
        return at + 1;
    }
    at
}

// A text; the place behind it.
pub fn put(out: &mut [u8], at: usize, text: &[u8]) -> usize
    ensures { Put out.old out.new at result text.now }
{
    let mut end = at;
    for b in text {
        end = put_byte(out, end, *b);
    }
    end
}

// Spaces up to a column of the line that begins at `start`, one at least.
pub fn put_spaces(out: &mut [u8], start: usize, at: usize, column: usize) -> usize
    ensures { Put out.old out.new at result (spaces (gap (at - start) column)) }
{
    if at < out.len() {
        let used = at.saturating_sub(start);
        let n = column.saturating_sub(used).max(1).min(out.len() - at);
        out[at..at + n].fill(b' ');
        return at + n;
    }
    at
}

// The most decimal digits of a number.
const DECIMAL_DIGITS: usize = 20;

// A number in decimal.
pub fn put_decimal(out: &mut [u8], at: usize, n: u64) -> usize
    ensures { Put out.old out.new at result (decimal n) }
{
    let mut digits = [0u8; DECIMAL_DIGITS];
    let k = io::decimal(n, &mut digits);
    put(out, at, &digits[..k])
}

// A number with what it counts: 1 word, 2 words.
pub fn put_count(out: &mut [u8], at: usize, n: u64, what: &[u8]) -> usize
    ensures { Put out.old out.new at result (counted n what.now) }
{
    let a = put_decimal(out, at, n);
    let b = put_byte(out, a, b' ');
    let c = put(out, b, what);
    if n == 1 {
        return c;
    }
    put_byte(out, c, b's')
}

// An x and four hexadecimal digits.
pub fn hex_text(v: u16) -> [u8; 5]
    ensures { result ≡ hex_text v }
{
    let digits = list_lines::hex4_of(v);
    [b'x', digits[0], digits[1], digits[2], digits[3]]
}

pub fn put_hex(out: &mut [u8], at: usize, v: u16) -> usize
    ensures { Put out.old out.new at result (hex_text v) }
{
    put(out, at, &hex_text(v))
}

// An x and two hexadecimal digits.
pub fn put_hex2(out: &mut [u8], at: usize, v: u16) -> usize
    ensures { Put out.old out.new at result (hex_text2 v) }
{
    let digits = list_lines::hex4_of(v);
    let a = put_byte(out, at, b'x');
    let b = put_byte(out, a, digits[2]);
    put_byte(out, b, digits[3])
}
