// Bytes of a source: their classes, upper case, the value of a digit, runs of a class, and names compared.
#![tactic(auto)]

ghost use Rattle.std.specs.Prelude.{◌≡◌, map, ◌+◌, ◌≤◌, ◌<◌, length, get_or};
ghost use Rattle.rules.specs.Base.{same};
ghost use Rattle.rules.specs.Tokens.{digit, letter, wordy, space, upper, value};
ghost use Rattle.base_text.specs.Runs.{plain, in_class, from, run_end};
ghost use Rattle.base_text.specs.Names.{ordered};
ghost use Rattle.base_text.specs.Keys.{two_at, four_at, key_at};

use std::cmp::Ordering;

// 0 to 9.
pub fn is_digit(b: u8) -> bool
    ensures { result ≡ digit b }
{
    (b'0' <= b) & (b <= b'9')
}

// A to Z, a to z and the underscore.
pub fn is_letter(b: u8) -> bool
    ensures { result ≡ letter b }
{
    ((b'A' <= b) & (b <= b'Z')) | ((b'a' <= b) & (b <= b'z')) | (b == b'_')
}

// A digit or a letter.
pub fn is_word(b: u8) -> bool
    ensures { result ≡ wordy b }
{
    is_digit(b) | is_letter(b)
}

// A space or a tab.
pub fn is_space(b: u8) -> bool
    ensures { result ≡ space b }
{
    (b == b' ') | (b == b'\t')
}

// How far a small letter stands from its capital.
const FROM_CAPITAL: u8 = b'a' - b'A';

// A small letter's capital; any other byte stays.
pub fn upper_case(b: u8) -> u8
    ensures { result ≡ upper b }
{
    if b < b'a' {
        return b;
    }
    if b <= b'z' {
        return b - FROM_CAPITAL;
    }
    b
}

// What a byte that is no digit has for a value.
const NO_DIGIT: u8 = 99;

// What is taken from A to F, and from a to f, for their values.
const BEFORE_CAPITALS: u8 = b'A' - 10;

const BEFORE_SMALL: u8 = b'a' - 10;

// The value of a digit up to F; NO_DIGIT of any other byte.
pub fn digit_value(b: u8) -> u8
    ensures { result ≡ value b }
{
    if b < b'0' {
        return NO_DIGIT;
    }
    if b <= b'9' {
        return b - b'0';
    }
    if b < b'A' {
        return NO_DIGIT;
    }
    if b <= b'F' {
        return b - BEFORE_CAPITALS;
    }
    if b < b'a' {
        return NO_DIGIT;
    }
    if b <= b'f' {
        return b - BEFORE_SMALL;
    }
    NO_DIGIT
}

// The first byte that is no ASCII character.
pub const PAST_ASCII: u8 = 128;

// A byte of a string that stands for itself and ends nothing: no quote, no backslash, no LF and no CR.
pub fn is_plain(b: u8) -> bool
    ensures { result ≡ plain b }
{
    !((b == b'"') | (b == b'\\') | (b == b'\n') | (b == b'\r'))
}

// The classes of which a source has runs; Line is every byte but the line feed, Plain what stands for itself in a string.
#[derive(Clone, Copy)]
pub enum Class {
    Word,
    Digit,
    Space,
    Hash,
    Line,
    Ascii,
    Plain,
}

pub fn in_class(class: Class, b: u8) -> bool
    ensures { result ≡ in_class class b }
{
    match class {
        Class::Word => is_word(b),
        Class::Digit => is_digit(b),
        Class::Space => is_space(b),
        Class::Hash => b == b'#',
        Class::Line => !(b == b'\n'),
        Class::Ascii => b < PAST_ASCII,
        Class::Plain => is_plain(b),
    }
}

// Where the longest run of bytes of the class from `at` ends.
pub fn run_end(src: &[u8], at: usize, class: Class) -> usize
    ensures { result ≡ run_end class src.now at }
{
    // A place past the end is asked for first: with the greater of both as the answer, a source of blank lines took two and a half times as long.
    if at < src.len() {
        for i in at..src.len() {
            if !in_class(class, src[i]) {
                return i;
            }
        }
        return src.len();
    }
    at
}

// The byte at i; 0 past the end.
pub fn byte_at(src: &[u8], i: usize) -> u8
    ensures { result ≡ get_or src.now i 0 }
{
    if i < src.len() { src[i] } else { 0 }
}

// Two names are the same in upper case.
pub fn same_name(a: &[u8], b: &[u8]) -> bool
    ensures { result ≡ same (map upper a.now) (map upper b.now) }
{
    if a.len() != b.len() {
        return false;
    }
    for i in 0..a.len() {
        if upper_case(a[i]) != upper_case(b[i]) {
            return false;
        }
    }
    true
}

// Two names in upper case, bytewise; a name goes before a longer one that it begins. Bytes that are the same need no upper case.
pub fn compare_names(a: &[u8], b: &[u8]) -> Ordering
    ensures { result ≡ ordered (map upper a.now) (map upper b.now) }
{
    for i in 0..a.len().min(b.len()) {
        if a[i] != b[i] {
            let x = upper_case(a[i]);
            let y = upper_case(b[i]);
            if x != y {
                return x.cmp(&y);
            }
        }
    }
    a.len().cmp(&b.len())
}

// What two bytes, and what four, count in front of as many.
const TWO_BYTES: u64 = 0x10000;

const FOUR_BYTES: u64 = 0x1_0000_0000;

// How many values a byte has.
const BYTE: u64 = 0x100;

// How many bytes a key has, and a half and a quarter of one.
pub const KEY_BYTES: usize = 8;

const HALF_BYTES: usize = 4;

const QUARTER_BYTES: usize = 2;

// Two bytes as one number, the first the higher.
fn two_at(s: &[u8], at: usize) -> u64
    requires { at + 2 ≤ length s.now }
    ensures { (result ≡ two_at s.now at) × (result < 65536) }
{
    let next = at + 1;
    u64::from(s[at]) * BYTE + u64::from(s[next])
}

// Four bytes. The last two stand in one sum with the others, so that one load reads them all.
fn four_at(s: &[u8], at: usize) -> u64
    requires { at + 4 ≤ length s.now }
    ensures { (result ≡ four_at s.now at) × (result < 4294967296) }
{
    let third = at + 2;
    let fourth = at + 3;
    two_at(s, at) * TWO_BYTES + u64::from(s[third]) * BYTE + u64::from(s[fourth])
}

// The key of eight bytes: keys are in the order of the bytes.
pub fn key_at(s: &[u8], at: usize) -> u64
    requires { at + 8 ≤ length s.now }
    ensures { result ≡ key_at s.now at }
{
    four_at(s, at) * FOUR_BYTES + four_at(s, at + 4)
}

// What is left of two names from a place on, byte by byte.
fn compare_from(a: &[u8], b: &[u8], at: usize) -> Ordering
    requires { (at ≤ length a.now) × (at ≤ length b.now) }
    ensures { result ≡ ordered (from a.now at) (from b.now at) }
{
    for i in at..a.len().min(b.len()) {
        if a[i] != b[i] {
            return a[i].cmp(&b[i]);
        }
    }
    a.len().cmp(&b.len())
}

// What is left of two names from a place on: two bytes at once, if both have them.
fn compare_quarter(a: &[u8], b: &[u8], shared: usize, at: usize) -> Ordering
    requires { (at ≤ shared) × (shared ≤ length a.now) × (shared ≤ length b.now) }
    ensures { result ≡ ordered (from a.now at) (from b.now at) }
{
    if shared - at < QUARTER_BYTES {
        return compare_from(a, b, at);
    }
    let x = two_at(a, at);
    let y = two_at(b, at);
    if x != y {
        return x.cmp(&y);
    }
    compare_from(a, b, at + QUARTER_BYTES)
}

// The same: four bytes at once, if both have them.
fn compare_half(a: &[u8], b: &[u8], shared: usize, at: usize) -> Ordering
    requires { (at ≤ shared) × (shared ≤ length a.now) × (shared ≤ length b.now) }
    ensures { result ≡ ordered (from a.now at) (from b.now at) }
{
    if shared - at < HALF_BYTES {
        return compare_quarter(a, b, shared, at);
    }
    let x = four_at(a, at);
    let y = four_at(b, at);
    if x != y {
        return x.cmp(&y);
    }
    compare_quarter(a, b, shared, at + HALF_BYTES)
}

// Two names as they stand, bytewise; a name goes before a longer one that it begins. For tables whose names are in upper case already, as those of objects are. Eight bytes are one key; of what is left four and two are looked at at once.
pub fn compare_bytes(a: &[u8], b: &[u8]) -> Ordering
    ensures { result ≡ ordered a.now b.now }
{
    let shared = a.len().min(b.len());
    let mut i = 0;
    // A while: steps of 8 bytes, as long as both names have so many.
    while KEY_BYTES <= shared - i {
        let x = key_at(a, i);
        let y = key_at(b, i);
        if x != y {
            return x.cmp(&y);
        }
        i += KEY_BYTES;
    }
    compare_half(a, b, shared, i)
}
