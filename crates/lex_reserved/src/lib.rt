// The thirty-two reserved words in one constant table, the search in it, and a quick way to a reserved word by its key.
#![tactic(auto)]

ghost use Rattle.std.specs.Prelude.{◌≡◌, map, ◌+◌, ◌-◌, ◌*◌, ◌≤◌, ◌<◌, length, get_or};
ghost use Rattle.rules.specs.Base.{same};
ghost use Rattle.rules.specs.Tokens.{upper};
ghost use Rattle.base_text.specs.Runs.{from};
ghost use Rattle.lex_reserved.specs.Ident.{ident_of};
ghost use Rattle.lex_reserved.specs.Table.{words, row, first_row, name_of, find_in};
ghost use Rattle.lex_reserved.specs.Slots.{key_of, key_bound, slot_of, slot_row};

// What a word is: reserved, with the code of its instruction, or a label. The codes count the instructions from 0 in the order of lex.rs.
// No Option: the Rust's enum of this name tells both by name.
#[derive(Clone, Copy)]
pub enum Ident {
    Reserved(u8),
    Label,
}

// The shortest reserved word and the longest, in bytes.
const SHORTEST: usize = 2;

pub const LONGEST: usize = 5;

// Where a row has its word's length and its code; how many cells it has, and how many rows there are.
const LENGTH: usize = LONGEST;

const CODE: usize = LONGEST + 1;

const ROW_CELLS: usize = LONGEST + 2;

const ROWS: usize = 32;

// A row has the word in upper case, filled up to five bytes, its length and its code. The rows are in order of the alphabet.
const WORDS: [[u8; ROW_CELLS]; ROWS] = [
    [b'A', b'D', b'D', 0, 0, 3, 0], // ADD
    [b'A', b'N', b'D', 0, 0, 3, 1], // AND
    [b'B', b'R', 0, 0, 0, 2, 3], // BR
    [b'B', b'R', b'N', 0, 0, 3, 7], // BRN
    [b'B', b'R', b'N', b'P', 0, 4, 8], // BRNP
    [b'B', b'R', b'N', b'Z', 0, 4, 9], // BRNZ
    [b'B', b'R', b'N', b'Z', b'P', 5, 10], // BRNZP
    [b'B', b'R', b'P', 0, 0, 3, 4], // BRP
    [b'B', b'R', b'Z', 0, 0, 3, 5], // BRZ
    [b'B', b'R', b'Z', b'P', 0, 4, 6], // BRZP
    [b'G', b'E', b'T', b'C', 0, 4, 25], // GETC
    [b'H', b'A', b'L', b'T', 0, 4, 31], // HALT
    [b'I', b'N', 0, 0, 0, 2, 29], // IN
    [b'J', b'M', b'P', 0, 0, 3, 11], // JMP
    [b'J', b'S', b'R', 0, 0, 3, 12], // JSR
    [b'J', b'S', b'R', b'R', 0, 4, 13], // JSRR
    [b'L', b'D', 0, 0, 0, 2, 14], // LD
    [b'L', b'D', b'I', 0, 0, 3, 15], // LDI
    [b'L', b'D', b'R', 0, 0, 3, 16], // LDR
    [b'L', b'E', b'A', 0, 0, 3, 17], // LEA
    [b'N', b'O', b'P', 0, 0, 3, 22], // NOP
    [b'N', b'O', b'T', 0, 0, 3, 2], // NOT
    [b'O', b'U', b'T', 0, 0, 3, 26], // OUT
    [b'P', b'U', b'T', b'C', 0, 4, 27], // PUTC
    [b'P', b'U', b'T', b'S', 0, 4, 28], // PUTS
    [b'P', b'U', b'T', b'S', b'P', 5, 30], // PUTSP
    [b'R', b'E', b'T', 0, 0, 3, 23], // RET
    [b'R', b'T', b'I', 0, 0, 3, 24], // RTI
    [b'S', b'T', 0, 0, 0, 2, 18], // ST
    [b'S', b'T', b'I', 0, 0, 3, 19], // STI
    [b'S', b'T', b'R', 0, 0, 3, 20], // STR
    [b'T', b'R', b'A', b'P', 0, 4, 21], // TRAP
];

// The letters, and the place past Z.
const LETTERS: usize = 27;

// For each letter, and past Z, how many rows stand before its first.
const STARTS: [u8; LETTERS] = [
    0, 2, 10, 10, 10, 10, 10, 11, 12, 13, 16, 16, 20, 20, 22, 23, 26, 26, 28, 31, 32, 32, 32, 32,
    32, 32, 32,
];

// A cell of the table.
fn cell(table: &[[u8; ROW_CELLS]; ROWS], i: usize, j: usize) -> u8
    requires { (table.now ≡ words) × (i < 32) × (j < 7) }
    ensures { result ≡ get_or (row i) j 0 }
{
    table[i][j]
}

// The row where the words of a letter begin, or those of the letter after Z would.
fn first_row(letter: u8) -> usize
    requires { (65 ≤ letter) × (letter ≤ 91) }
    ensures { result ≡ first_row letter }
{
    let k = usize::from(letter - b'A');
    usize::from(STARTS[k])
}

// Whether s is in upper case the word of row i.
fn row_is(table: &[[u8; ROW_CELLS]; ROWS], i: usize, s: &[u8]) -> bool
    requires { (table.now ≡ words) × (i < 32) }
    ensures { result ≡ same (map upper s.now) (name_of (row i)) }
{
    let n = usize::from(cell(table, i, LENGTH));
    if n != s.len() {
        return false;
    }
    for j in 0..n {
        if base_text::upper_case(s[j]) != cell(table, i, j) {
            return false;
        }
    }
    true
}

// The code of the word that s is among the rows from first up to last.
fn find_row(table: &[[u8; ROW_CELLS]; ROWS], s: &[u8], first: usize, last: usize) -> Ident
    requires { (table.now ≡ words) × (first ≤ last) × (last ≤ 32) }
    ensures { result ≡ find_in (last - first) first (map upper s.now) }
{
    for i in first..last {
        if row_is(table, i, s) {
            return Ident::Reserved(cell(table, i, CODE));
        }
    }
    Ident::Label
}

// What the word s is, by the table. Only the rows of its first letter are searched, and none where its length is no reserved word's.
fn search(s: &[u8]) -> Ident
    ensures { result ≡ ident_of (map upper s.now) }
{
    if s.len() < SHORTEST {
        return Ident::Label;
    }
    if LONGEST < s.len() {
        return Ident::Label;
    }
    let letter = base_text::upper_case(s[0]);
    if letter < b'A' {
        return Ident::Label;
    }
    if b'Z' < letter {
        return Ident::Label;
    }
    let first = first_row(letter);
    let last = first_row(letter + 1);
    if last <= first {
        return Ident::Label;
    }
    let table = WORDS;
    find_row(&table, s, first, last)
}

// How many values a byte has.
const BYTE: u64 = 0x100;

// What stands above a key's last byte: a word's key says how long it is.
const ABOVE_LAST: u64 = 1;

// The key of what a word has from byte i on: these bytes in upper case as digits of base 256, the first the lowest. `above` is the key from the next byte on.
fn key_from(s: &[u8], i: usize, above: u64) -> u64
    requires { (above ≡ key_of (map upper (from s.now (i + 1)))) × (above * 256 + 256 ≤ key_bound) }
    ensures { (result ≡ key_of (map upper (from s.now i))) × (result < above * 256 + 256) }
{
    if i < s.len() {
        return above * BYTE + u64::from(base_text::upper_case(s[i]));
    }
    above
}

// The key of a word that is not longer than the longest reserved one.
fn key_of(s: &[u8]) -> u64
    requires { length s.now ≤ 5 }
    ensures { (result ≡ key_of (map upper s.now)) × (result < key_bound) }
{
    let fifth = key_from(s, 4, ABOVE_LAST);
    let fourth = key_from(s, 3, fifth);
    let third = key_from(s, 2, fourth);
    let second = key_from(s, 1, third);
    key_from(s, 0, second)
}

// How many slots there are, and what spreads the keys over them: no two reserved words have the same slot.
const SLOTS: u64 = 64;

const FACTOR: u64 = 515841;

const DIVISOR: u64 = 0x800_0000;

// The slot of a key.
fn slot_of(key: u64) -> u64
    requires { key < key_bound }
    ensures { result ≡ slot_of key }
{
    key * FACTOR / DIVISOR % SLOTS
}

// How many codes there is room for in a row, below the key.
const CODES: u64 = 0x100;

// The reserved word of a slot as one number: in hexadecimal its key, which is a 1 and its bytes from the last to the first, then its code. 0 where the slot is no word's. The rows are in the order of the codes.
fn slot_row(slot: u64) -> u64
    ensures { result ≡ slot_row slot }
{
    match slot {
        10 => 0x1_444441_00, // ADD
        20 => 0x1_444e41_01, // AND
        19 => 0x1_544f4e_02, // NOT
        12 => 0x1_5242_03, // BR
        39 => 0x1_505242_04, // BRP
        61 => 0x1_5a5242_05, // BRZ
        7 => 0x1_505a5242_06, // BRZP
        47 => 0x1_4e5242_07, // BRN
        57 => 0x1_504e5242_08, // BRNP
        58 => 0x1_5a4e5242_09, // BRNZ
        26 => 0x1_505a4e5242_0a, // BRNZP
        34 => 0x1_504d4a_0b, // JMP
        31 => 0x1_52534a_0c, // JSR
        41 => 0x1_5252534a_0d, // JSRR
        63 => 0x1_444c_0e, // LD
        54 => 0x1_49444c_0f, // LDI
        17 => 0x1_52444c_10, // LDR
        24 => 0x1_41454c_11, // LEA
        14 => 0x1_5453_12, // ST
        6 => 0x1_495453_13, // STI
        32 => 0x1_525453_14, // STR
        46 => 0x1_50415254_15, // TRAP
        36 => 0x1_504f4e_16, // NOP
        9 => 0x1_544552_17, // RET
        5 => 0x1_495452_18, // RTI
        50 => 0x1_43544547_19, // GETC
        25 => 0x1_54554f_1a, // OUT
        1 => 0x1_43545550_1b, // PUTC
        3 => 0x1_53545550_1c, // PUTS
        8 => 0x1_4e49_1d, // IN
        35 => 0x1_5053545550_1e, // PUTSP
        49 => 0x1_544c4148_1f, // HALT
        _ => 0,
    }
}

// What the word s is. A reserved word is found in its slot; the table is searched for every other.
pub fn ident_of(s: &[u8]) -> Ident
    ensures { result ≡ ident_of (map upper s.now) }
{
    if s.len() < SHORTEST {
        return Ident::Label;
    }
    if LONGEST < s.len() {
        return Ident::Label;
    }
    let key = key_of(s);
    let row = slot_row(slot_of(key));
    if row / CODES == key {
        return Ident::Reserved((row % CODES) as u8);
    }
    search(s)
}
