// What the programs that replay vectors share: fields of a line of text read, a source written, and a difference told.
#![tactic(auto)]

ghost use Rattle.std.specs.Prelude.{◌≡◌};
ghost use Rattle.rules.specs.Base.{same};
ghost use Rattle.view_text.specs.Put.{Put};
ghost use Rattle.test_support.specs.Fields.{past, between, number_of, decimal_at, part_at};
ghost use Rattle.test_support.specs.Sources.{pair, unhexed, copies, repeated, WroteSource};
ghost use Rattle.test_support.specs.Telling.{digit_of, differs_text};

use base_text::Class;
use view_text::put_byte;

// A number that was read, and the place after it.
#[derive(Clone, Copy)]
pub struct Taken {
    pub value: usize,
    pub next: usize,
}

// Hexadecimal digits from a place up to another, and where the next field begins.
#[derive(Clone, Copy)]
pub struct Part {
    pub start: usize,
    pub stop: usize,
    pub next: usize,
}

// The place after a byte, where there is one.
fn past(text: &[u8], at: usize) -> usize
    ensures { result ≡ past text.now at }
{
    if at < text.len() {
        return at + 1;
    }
    at
}

// The bytes from a place up to another; none where these places are not in the text.
fn between(text: &[u8], start: usize, stop: usize) -> &[u8]
    ensures { result.now ≡ between text.now start stop }
{
    if start <= stop {
        if stop <= text.len() {
            return &text[start..stop];
        }
        return &text[..0];
    }
    &text[..0]
}

// Numbers are kept by their last twelve digits.
const TWELVE_DIGITS: usize = 1000000000000;

// The number that decimal digits stand for.
fn number_of(digits: &[u8]) -> usize
    ensures { result ≡ number_of digits.now }
{
    let mut value: usize = 0;
    for b in digits {
        let digit = usize::from(base_text::digit_value(*b));
        value = (value * 10 + digit) % TWELVE_DIGITS;
    }
    value
}

// A decimal number and the place after the byte that ends it.
pub fn decimal(text: &[u8], at: usize) -> Taken
    ensures { result ≡ decimal_at text.now at }
{
    let stop = base_text::run_end(text, at, Class::Digit);
    Taken {
        value: number_of(between(text, at, stop)),
        next: past(text, stop),
    }
}

// A field of hexadecimal digits; `-` stands for none.
pub fn part_at(text: &[u8], at: usize) -> Part
    ensures { result ≡ part_at text.now at }
{
    let stop = base_text::run_end(text, at, Class::Word);
    let next = past(text, stop);
    if base_text::byte_at(text, stop) == b'-' {
        return Part {
            start: at,
            stop,
            next: past(text, next),
        };
    }
    Part {
        start: at,
        stop,
        next,
    }
}

// The digits of a field.
pub fn digits_of(text: &[u8], part: Part) -> &[u8]
    ensures { result.now ≡ between text.now part.start part.stop }
{
    between(text, part.start, part.stop)
}

// How many bytes there are, and how many values a hexadecimal digit has.
const BYTES: u16 = 256;

const HEX: u16 = 16;

// The byte of two hexadecimal digits.
fn pair(high: u8, low: u8) -> u8
    ensures { result ≡ pair high low }
{
    let first = u16::from(base_text::digit_value(high));
    let second = u16::from(base_text::digit_value(low));
    ((first * HEX + second) % BYTES) as u8
}

// Writes the bytes that pairs of hexadecimal digits stand for from `at` on, as far as they fit, and answers the place behind them.
pub fn unhex(digits: &[u8], out: &mut [u8], at: usize) -> usize
    ensures { Put out.old out.new at result (unhexed digits.now) }
{
    let mut end = at;
    for two in digits.chunks_exact(2) {
        end = put_byte(out, end, pair(two[0], two[1]));
    }
    end
}

// Writes a byte so many times, as far as it fits, and answers the place behind.
pub fn repeat(out: &mut [u8], at: usize, byte: u8, count: usize) -> usize
    ensures { Put out.old out.new at result (copies count byte) }
{
    if at < out.len() {
        let n = count.min(out.len() - at);
        out[at..at + n].fill(byte);
        return at + n;
    }
    at
}

// Writes what hexadecimal digits stand for so many times, as far as it fits, and answers the place behind.
fn repeat_hex(digits: &[u8], out: &mut [u8], at: usize, count: usize) -> usize
    ensures { Put out.old out.new at result (repeated count (unhexed digits.now)) }
{
    let mut end = at;
    for _ in 0..count {
        end = unhex(digits, out, end);
    }
    end
}

// Writes the source whose four fields begin at a place: a head, a part with how often it stands there, a tail. Its length, and the place after the fields.
pub fn write_source(text: &[u8], at: usize, out: &mut [u8]) -> Taken
    ensures { WroteSource text.now at out.old out.new result }
{
    let head = part_at(text, at);
    let unit = part_at(text, head.next);
    let count = decimal(text, unit.next);
    let tail = part_at(text, count.next);
    let one = unhex(digits_of(text, head), out, 0);
    let two = repeat_hex(digits_of(text, unit), out, one, count.value);
    let three = unhex(digits_of(text, tail), out, two);
    Taken {
        value: three,
        next: tail.next,
    }
}

// Whether a text is what hexadecimal digits stand for.
pub fn same_hex(text: &[u8], digits: &[u8]) -> bool
    ensures { result ≡ same text.now (unhexed digits.now) }
{
    if text.len() != digits.len() / 2 {
        return false;
    }
    for (i, b) in text.iter().enumerate() {
        if *b != pair(digits[2 * i], digits[2 * i + 1]) {
            return false;
        }
    }
    true
}

// The last decimal digit of a number.
fn digit_of(n: u64) -> u8
    ensures { result ≡ digit_of n }
{
    b'0' + (n % 10) as u8
}

// The line of a vector that is answered otherwise, by the last six digits of its number from 0.
pub fn difference(number: u64) -> [u8; 16]
    ensures { result ≡ differs_text number }
{
    [
        b'd',
        b'i',
        b'f',
        b'f',
        b'e',
        b'r',
        b's',
        b':',
        b' ',
        digit_of(number / 100000),
        digit_of(number / 10000),
        digit_of(number / 1000),
        digit_of(number / 100),
        digit_of(number / 10),
        digit_of(number),
        b'\n',
    ]
}
