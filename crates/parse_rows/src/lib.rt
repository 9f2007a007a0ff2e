// The rows of instructions and directives: what a statement does, its word with all operands zero, and its operands.
#![tactic(auto)]

ghost use Rattle.std.specs.Prelude.{◌≡◌, map, ◌≤◌, ◌<◌, length};
ghost use Rattle.rules.specs.Base.{same};
ghost use Rattle.rules.specs.Tokens.{upper};
ghost use Rattle.rules.specs.Words.{directives};
ghost use Rattle.parse_rows.specs.Rows.{digits_at, field_at, op_at, row_at, code_from};

use parse_field::Field;

// What a statement does.
#[derive(Clone, Copy)]
pub enum Op {
    Instr,
    Orig,
    Fill,
    Blkw,
    Stringz,
    End,
    External,
}

// The word with all operands zero, how many operands there are, and the field of each. Fields past the count mean nothing.
#[derive(Clone, Copy)]
pub struct Row {
    pub op: Op,
    pub base: u16,
    pub count: u16,
    pub first: Field,
    pub second: Field,
    pub third: Field,
}

// How many instructions there are: their rows stand at the places of their codes.
const INSTRUCTIONS: usize = 32;

// The place of NOP, the one instruction whose operand may be left out.
pub const NOP: usize = 22;

// The places of the directives, behind the instructions, and how many rows there are.
const ORIG: usize = INSTRUCTIONS;

const FILL: usize = INSTRUCTIONS + 1;

const BLKW: usize = INSTRUCTIONS + 2;

const STRINGZ: usize = INSTRUCTIONS + 3;

const END: usize = INSTRUCTIONS + 4;

const EXTERNAL: usize = INSTRUCTIONS + 5;

pub const ROWS: usize = INSTRUCTIONS + 6;

// The row of an instruction, by its code, as one number: in hexadecimal the word, then a digit for the count of operands and one for each of three fields.
fn instruction_digits(i: usize) -> u32
    requires { i < 32 }
    ensures { result ≡ digits_at i }
{
    match i {
        0 => 0x1000_3012, // ADD
        1 => 0x5000_3012, // AND
        2 => 0x903f_2010, // NOT
        3 => 0x0e00_1400, // BR
        4 => 0x0200_1400, // BRP
        5 => 0x0400_1400, // BRZ
        6 => 0x0600_1400, // BRZP
        7 => 0x0800_1400, // BRN
        8 => 0x0a00_1400, // BRNP
        9 => 0x0c00_1400, // BRNZ
        10 => 0x0e00_1400, // BRNZP
        11 => 0xc000_1100, // JMP
        12 => 0x4800_1500, // JSR
        13 => 0x4000_1100, // JSRR
        14 => 0x2000_2040, // LD
        15 => 0xa000_2040, // LDI
        16 => 0x6000_3013, // LDR
        17 => 0xe000_2040, // LEA
        18 => 0x3000_2040, // ST
        19 => 0xb000_2040, // STI
        20 => 0x7000_3013, // STR
        21 => 0xf000_1600, // TRAP
        NOP => 0x0000_1400, // NOP
        23 => 0xc1c0_0000, // RET
        24 => 0x8000_0000, // RTI
        25 => 0xf020_0000, // GETC
        26 => 0xf021_0000, // OUT
        27 => 0xf021_0000, // PUTC
        28 => 0xf022_0000, // PUTS
        29 => 0xf023_0000, // IN
        30 => 0xf024_0000, // PUTSP
        _ => 0xf025_0000, // HALT
    }
}

// The row of a directive in the same form. The directives stand after the instructions.
fn directive_digits(i: usize) -> u32
    requires { (32 ≤ i) × (i < 38) }
    ensures { result ≡ digits_at i }
{
    match i {
        ORIG => 0x0000_1700, // .ORIG
        FILL => 0x0000_1800, // .FILL
        BLKW => 0x0000_1700, // .BLKW
        STRINGZ => 0x0000_1a00, // .STRINGZ
        END => 0x0000_0000, // .END
        _ => 0x0000_1900, // .EXTERNAL
    }
}

// The row at a place of the table as one number.
fn digits(i: usize) -> u32
    requires { i < 38 }
    ensures { result ≡ digits_at i }
{
    if i < INSTRUCTIONS {
        return instruction_digits(i);
    }
    directive_digits(i)
}

// A field by the digit that a row has for it.
fn field_of(k: u32) -> Field
    ensures { result ≡ field_at k }
{
    match k {
        0 => Field::Dr,
        1 => Field::Sr,
        2 => Field::RegOrImm,
        3 => Field::Offset6,
        4 => Field::Near9,
        5 => Field::Near11,
        6 => Field::Trap,
        7 => Field::Word,
        8 => Field::Fill,
        9 => Field::Name,
        _ => Field::Text,
    }
}

// What the statement of row i does.
fn op_of(i: usize) -> Op
    ensures { result ≡ op_at i }
{
    match i {
        ORIG => Op::Orig,
        FILL => Op::Fill,
        BLKW => Op::Blkw,
        STRINGZ => Op::Stringz,
        END => Op::End,
        EXTERNAL => Op::External,
        _ => Op::Instr,
    }
}

// How far up in a row's number its word, its count of operands and its first two fields stand; the third field is the last digit.
const WORD_AT: u32 = 0x1_0000;

const COUNT_AT: u32 = 0x1000;

const FIRST_AT: u32 = 0x100;

const SECOND_AT: u32 = 0x10;

const DIGIT: u32 = 0x10;

// The row at a place of the table: an instruction's place is its code.
pub fn row_at(i: usize) -> Row
    requires { i < 38 }
    ensures { result ≡ row_at i }
{
    let row = digits(i);
    Row {
        op: op_of(i),
        base: (row / WORD_AT) as u16,
        count: (row / COUNT_AT % DIGIT) as u16,
        first: field_of(row / FIRST_AT % DIGIT),
        second: field_of(row / SECOND_AT % DIGIT),
        third: field_of(row % DIGIT),
    }
}

// How many letters FILL, BLKW and ORIG have. They are looked for by themselves: a .fill stands for each word of data.
const FILL_LETTERS: usize = 4;

// Whether a name of four letters is in upper case this word.
fn spells(name: &[u8], word: &[u8; FILL_LETTERS]) -> bool
    requires { (length name.now ≡ 4) × (length word.now ≡ 4) }
    ensures { result ≡ same (map upper name.now) word.now }
{
    (base_text::upper_case(name[0]) == word[0])
        & (base_text::upper_case(name[1]) == word[1])
        & (base_text::upper_case(name[2]) == word[2])
        & (base_text::upper_case(name[3]) == word[3])
}

// The place in the table of the directive of this name of four letters, or ROWS where there is none.
fn four_letter_code(name: &[u8]) -> usize
    requires { length name.now ≡ 4 }
    ensures { result ≡ code_from 32 (map upper name.now) directives }
{
    if spells(name, b"FILL") {
        return FILL;
    }
    if spells(name, b"BLKW") {
        return BLKW;
    }
    if spells(name, b"ORIG") {
        return ORIG;
    }
    ROWS
}

// The place in the table of the directive of this name, in any case, or ROWS where there is none.
pub fn directive_code(name: &[u8]) -> usize
    ensures { result ≡ code_from 32 (map upper name.now) directives }
{
    if name.len() == FILL_LETTERS {
        return four_letter_code(name);
    }
    if base_text::same_name(name, b"STRINGZ") {
        return STRINGZ;
    }
    if base_text::same_name(name, b"END") {
        return END;
    }
    if base_text::same_name(name, b"EXTERNAL") {
        return EXTERNAL;
    }
    ROWS
}
