// A line of disassembly as a person reads it, and how far it reaches.
#![tactic(auto)]

ghost use Rattle.std.specs.Prelude.{◌≡◌, ◌+◌, ◌%◌, [], ◌∷◌, ◌++◌};
ghost use Rattle.isa.specs.Instructions.{operand_of, meant};
ghost use Rattle.isa.specs.Disassembly.{meant_line};
ghost use Rattle.view_text.specs.Put.{Put};
ghost use Rattle.view_instruction.specs.Lines.{reg, number, offset, vector, last_part, spelling, signed_text, part_text, space, parts_text, instr_text, line_text, parts_reach, line_reach};
ghost use Rattle.view_instruction.specs.Spelled.{key_row, key_text, parts_of, reached};

use base_text::Class;
use isa::disassembly::Line;
use isa::{AsmInstr, ImmOrReg};
use view_text::{put, put_byte};

// An instruction's operands: registers, a number, an offset from the next word, a trap's vector.
#[derive(Clone, Copy)]
enum Operands {
    Nothing,
    Reg(u16),
    RegReg(u16, u16),
    RegRegReg(u16, u16, u16),
    RegRegNumber(u16, u16, u16),
    Number(u16),
    Offset(u16),
    RegOffset(u16, u16),
    Vector(u16),
}

// How many registers there are, and sets of the flags n, z and p.
const REGISTERS: u16 = 8;

const FLAG_SETS: u16 = 8;

// The longest mnemonic, and how many there are.
const KEY_BYTES: usize = 5;

const KEYS: usize = 32;

// The mnemonics, filled up with spaces: BR by its flags, then the others.
const KEY_ROWS: [[u8; KEY_BYTES]; KEYS] = [
    *b"BR   ", *b"BRp  ", *b"BRz  ", *b"BRzp ", *b"BRn  ", *b"BRnp ", *b"BRnz ", *b"BRnzp",
    *b"ADD  ", *b"AND  ", *b"NOT  ", *b"JMP  ", *b"JSR  ", *b"JSRR ", *b"LD   ", *b"LDI  ",
    *b"LDR  ", *b"LEA  ", *b"ST   ", *b"STI  ", *b"STR  ", *b"NOP  ", *b"TRAP ", *b"RET  ",
    *b"RTI  ", *b"GETC ", *b"OUT  ", *b"PUTC ", *b"PUTS ", *b"IN   ", *b"PUTSP", *b"HALT ",
];

// Their rows.
const ADD: usize = 8;

const AND: usize = 9;

const NOT: usize = 10;

const JMP: usize = 11;

const JSR: usize = 12;

const JSRR: usize = 13;

const LD: usize = 14;

const LDI: usize = 15;

const LDR: usize = 16;

const LEA: usize = 17;

const ST: usize = 18;

const STI: usize = 19;

const STR: usize = 20;

const NOP: usize = 21;

const TRAP: usize = 22;

const RET: usize = 23;

const RTI: usize = 24;

const GETC: usize = 25;

const OUT: usize = 26;

const PUTC: usize = 27;

const PUTS: usize = 28;

const IN: usize = 29;

const PUTSP: usize = 30;

const HALT: usize = 31;

// The row of an instruction's mnemonic.
fn key_of(instr: AsmInstr) -> usize
    ensures { key_row result ≡ (spelling (meant instr)).key }
{
    match instr {
        AsmInstr::ADD(_, _, _) => ADD,
        AsmInstr::AND(_, _, _) => AND,
        AsmInstr::NOT(_, _) => NOT,
        AsmInstr::BR(nzp, _) => usize::from(nzp % FLAG_SETS),
        AsmInstr::JMP(_) => JMP,
        AsmInstr::JSR(_) => JSR,
        AsmInstr::JSRR(_) => JSRR,
        AsmInstr::LD(_, _) => LD,
        AsmInstr::LDI(_, _) => LDI,
        AsmInstr::LDR(_, _, _) => LDR,
        AsmInstr::LEA(_, _) => LEA,
        AsmInstr::ST(_, _) => ST,
        AsmInstr::STI(_, _) => STI,
        AsmInstr::STR(_, _, _) => STR,
        AsmInstr::NOP(_) => NOP,
        AsmInstr::TRAP(_) => TRAP,
        AsmInstr::RET => RET,
        AsmInstr::RTI => RTI,
        AsmInstr::GETC => GETC,
        AsmInstr::OUT => OUT,
        AsmInstr::PUTC => PUTC,
        AsmInstr::PUTS => PUTS,
        AsmInstr::IN => IN,
        AsmInstr::PUTSP => PUTSP,
        AsmInstr::HALT => HALT,
    }
}

// The operands of ADD and AND.
fn with_last(a: u16, b: u16, last: ImmOrReg) -> Operands
    ensures { parts_of result ≡ reg a ∷ reg b ∷ last_part (operand_of last) ∷ [] }
{
    match last {
        ImmOrReg::Imm(d) => Operands::RegRegNumber(a, b, d),
        ImmOrReg::Reg(c) => Operands::RegRegReg(a, b, c),
    }
}

fn operands_of(instr: AsmInstr) -> Operands
    ensures { parts_of result ≡ (spelling (meant instr)).parts }
{
    match instr {
        AsmInstr::ADD(d, s, o) => with_last(d, s, o),
        AsmInstr::AND(d, s, o) => with_last(d, s, o),
        AsmInstr::NOT(d, s) => Operands::RegReg(d, s),
        AsmInstr::BR(_, o) => Operands::Offset(o),
        AsmInstr::JMP(b) => Operands::Reg(b),
        AsmInstr::JSR(o) => Operands::Offset(o),
        AsmInstr::JSRR(b) => Operands::Reg(b),
        AsmInstr::LD(d, o) => Operands::RegOffset(d, o),
        AsmInstr::LDI(d, o) => Operands::RegOffset(d, o),
        AsmInstr::LDR(d, b, o) => Operands::RegRegNumber(d, b, o),
        AsmInstr::LEA(d, o) => Operands::RegOffset(d, o),
        AsmInstr::ST(s, o) => Operands::RegOffset(s, o),
        AsmInstr::STI(s, o) => Operands::RegOffset(s, o),
        AsmInstr::STR(s, b, o) => Operands::RegRegNumber(s, b, o),
        AsmInstr::NOP(o) => Operands::Number(o),
        AsmInstr::TRAP(v) => Operands::Vector(v),
        AsmInstr::RET => Operands::Nothing,
        AsmInstr::RTI => Operands::Nothing,
        AsmInstr::GETC => Operands::Nothing,
        AsmInstr::OUT => Operands::Nothing,
        AsmInstr::PUTC => Operands::Nothing,
        AsmInstr::PUTS => Operands::Nothing,
        AsmInstr::IN => Operands::Nothing,
        AsmInstr::PUTSP => Operands::Nothing,
        AsmInstr::HALT => Operands::Nothing,
    }
}

// The row of a mnemonic.
fn key_row(row: usize) -> [u8; KEY_BYTES]
    ensures { key_text result ≡ key_row row }
{
    if row < KEYS {
        return KEY_ROWS[row];
    }
    *b"     "
}

fn put_key(out: &mut [u8], at: usize, row: usize) -> usize
    ensures { Put out.old out.new at result (key_row row) }
{
    let key = key_row(row);
    let n = base_text::run_end(&key, 0, Class::Word);
    put(out, at, &key[..n])
}

// The digit of a register.
fn reg_digit(r: u16) -> u8
    ensures { result ≡ 48 + r % 8 }
{
    b'0' + (r % REGISTERS) as u8
}

// A text and a register.
fn put_reg(out: &mut [u8], at: usize, before: &[u8], r: u16) -> usize
    ensures { Put out.old out.new at result (before.now ++ part_text (reg r)) }
{
    let a = put(out, at, before);
    let b = put_byte(out, a, b'R');
    put_byte(out, b, reg_digit(r))
}

// The first word that is negative as a signed number, and how many words there are.
const SIGN: u16 = 32768;

const WORDS: u64 = 65536;

// A signed number in decimal.
fn put_signed(out: &mut [u8], at: usize, d: u16) -> usize
    ensures { Put out.old out.new at result (signed_text d) }
{
    if d < SIGN {
        let next = put(out, at, b"#");
        return view_text::put_decimal(out, next, u64::from(d));
    }
    let next = put(out, at, b"#-");
    view_text::put_decimal(out, next, WORDS - u64::from(d))
}

// A text and a signed number.
fn put_number(out: &mut [u8], at: usize, before: &[u8], d: u16) -> usize
    ensures { Put out.old out.new at result (before.now ++ part_text (number d)) }
{
    let next = put(out, at, before);
    put_signed(out, next, d)
}

// The first register, and the first two.
fn put_one(out: &mut [u8], at: usize, a: u16) -> usize
    ensures { Put out.old out.new at result (space ++ part_text (reg a)) }
{
    put_reg(out, at, b" ", a)
}

fn put_two(out: &mut [u8], at: usize, a: u16, b: u16) -> usize
    ensures { Put out.old out.new at result (parts_text space (reg a ∷ reg b ∷ [])) }
{
    let next = put_one(out, at, a);
    put_reg(out, next, b", ", b)
}

fn put_three(out: &mut [u8], at: usize, a: u16, b: u16, c: u16) -> usize
    ensures { Put out.old out.new at result (parts_text space (reg a ∷ reg b ∷ reg c ∷ [])) }
{
    let next = put_two(out, at, a, b);
    put_reg(out, next, b", ", c)
}

fn put_two_number(out: &mut [u8], at: usize, a: u16, b: u16, d: u16) -> usize
    ensures { Put out.old out.new at result (parts_text space (reg a ∷ reg b ∷ number d ∷ [])) }
{
    let next = put_two(out, at, a, b);
    put_number(out, next, b", ", d)
}

fn put_one_offset(out: &mut [u8], at: usize, a: u16, d: u16) -> usize
    ensures { Put out.old out.new at result (parts_text space (reg a ∷ offset d ∷ [])) }
{
    let next = put_one(out, at, a);
    put_number(out, next, b", ", d)
}

fn put_alone(out: &mut [u8], at: usize, d: u16) -> usize
    ensures { Put out.old out.new at result (space ++ part_text (number d)) }
{
    put_number(out, at, b" ", d)
}

fn put_vector(out: &mut [u8], at: usize, v: u16) -> usize
    ensures { Put out.old out.new at result (parts_text space (vector v ∷ [])) }
{
    let next = put_byte(out, at, b' ');
    view_text::put_hex2(out, next, v)
}

fn put_operands(out: &mut [u8], at: usize, operands: Operands) -> usize
    ensures { Put out.old out.new at result (parts_text space (parts_of operands)) }
{
    match operands {
        Operands::Nothing => at,
        Operands::Reg(a) => put_one(out, at, a),
        Operands::RegReg(a, b) => put_two(out, at, a, b),
        Operands::RegRegReg(a, b, c) => put_three(out, at, a, b, c),
        Operands::RegRegNumber(a, b, d) => put_two_number(out, at, a, b, d),
        Operands::Number(d) => put_alone(out, at, d),
        Operands::Offset(d) => put_alone(out, at, d),
        Operands::RegOffset(a, d) => put_one_offset(out, at, a, d),
        Operands::Vector(v) => put_vector(out, at, v),
    }
}

fn put_instr(out: &mut [u8], at: usize, instr: AsmInstr) -> usize
    ensures { Put out.old out.new at result (instr_text (meant instr)) }
{
    let next = put_key(out, at, key_of(instr));
    put_operands(out, next, operands_of(instr))
}

// A line of disassembly.
pub fn put_line(out: &mut [u8], at: usize, line: Line) -> usize
    ensures { Put out.old out.new at result (line_text (meant_line line)) }
{
    match line {
        Line::Instr(instr) => put_instr(out, at, instr),
        Line::Fill(word) => {
            let next = put(out, at, b".fill ");
            view_text::put_hex(out, next, word)
        }
    }
}

// The offset among operands, if there is one.
fn operands_reach(operands: Operands) -> Option<u16>
    ensures { reached result ≡ parts_reach (parts_of operands) }
{
    match operands {
        Operands::Nothing => None,
        Operands::Reg(_) => None,
        Operands::RegReg(_, _) => None,
        Operands::RegRegReg(_, _, _) => None,
        Operands::RegRegNumber(_, _, _) => None,
        Operands::Number(_) => None,
        Operands::Offset(d) => Some(d),
        Operands::RegOffset(_, d) => Some(d),
        Operands::Vector(_) => None,
    }
}

// How far from the next word a line reaches, if it does.
pub fn line_reach(line: Line) -> Option<u16>
    ensures { reached result ≡ line_reach (meant_line line) }
{
    match line {
        Line::Instr(instr) => operands_reach(operands_of(instr)),
        Line::Fill(_) => None,
    }
}
