// The key of a name: its first ten characters as one number. Where two keys differ, the names in upper case are in the order of the keys.
#![tactic(auto)]

ghost use Rattle.std.specs.Prelude.{◌≡◌, map};
ghost use Rattle.rules.specs.Tokens.{upper};
ghost use Rattle.base_keys.specs.Keys.{digit_of, onward, key_of};

// How many values a digit may have, and what the first of ten digits counts.
const DIGITS: u64 = 64;

const FIRST: u64 = 0x40_0000_0000_0000;

// The digits of a byte below the character 0 and of one above the underscore, which no word has.
const LOW: u8 = 0;

const HIGH: u8 = 49;

// What is taken from a byte for its digit, and from a small letter for that of its capital.
const BEFORE_ZERO: u8 = b'0' - 1;

const BEFORE_SMALL: u8 = b'a' - b'A' + BEFORE_ZERO;

// The digit of a byte in upper case.
fn digit_of(b: u8) -> u8
    ensures { result ≡ digit_of (upper b) }
{
    if b < b'0' {
        return LOW;
    }
    if b <= b'_' {
        return b - BEFORE_ZERO;
    }
    if b < b'a' {
        return HIGH;
    }
    if b <= b'z' {
        return b - BEFORE_SMALL;
    }
    HIGH
}

// What the digit after one counts: nothing after a byte that no word has.
fn next_weight(digit: u8, weight: u64) -> u64
    ensures { result ≡ onward digit weight }
{
    if (digit == LOW) | (digit == HIGH) {
        return 0;
    }
    weight / DIGITS
}

// The key of a name in upper case.
pub fn key_of(name: &[u8]) -> u64
    ensures { result ≡ key_of (map upper name.now) }
{
    let mut key = 0;
    let mut weight = FIRST;
    for b in name {
        let digit = digit_of(*b);
        key += u64::from(digit) * weight;
        weight = next_weight(digit, weight);
        if weight == 0 {
            return key;
        }
    }
    key
}
