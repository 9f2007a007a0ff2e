// From a word back to the instruction that encodes to exactly it, or to a fill.
ghost use Rattle.std.specs.Prelude.{◌≡◌, ◌+◌, ◌-◌, ◌/◌, ◌≤◌, ◌<◌};
ghost use Rattle.rules.specs.Words.{low, disassemble, line};
ghost use Rattle.isa.specs.Disassembly.{extended, last_of, meant_if, meant_line};

use crate::{AsmInstr, ImmOrReg, codes};
use isa_fields::{HALF5, HALF6, HALF9, HALF11, VALUES5, VALUES6, VALUES9, VALUES11, WORD_MOST};

// A line of disassembly: an instruction, or a .fill of the word.
#[derive(Clone, Copy)]
pub enum Line {
    Instr(AsmInstr),
    Fill(u16),
}

// The bits of a signed field whose numbers are two halves: the sign bit fills the high ones.
fn sign_extend(bits: u16, half: u16) -> u16
    requires { (0 < half) × (half ≤ 32768) × (bits < half + half) }
    ensures { result ≡ extended half bits }
{
    if bits < half {
        bits
    } else {
        bits + (WORD_MOST - (half - 1) - half)
    }
}

// The signed numbers in the low bits of a word.
fn imm5_of(word: u16) -> u16
    ensures { result ≡ low 5 word }
{
    sign_extend(word % VALUES5, HALF5)
}

fn offset6_of(word: u16) -> u16
    ensures { result ≡ low 6 word }
{
    sign_extend(word % VALUES6, HALF6)
}

fn offset9_of(word: u16) -> u16
    ensures { result ≡ low 9 word }
{
    sign_extend(word % VALUES9, HALF9)
}

fn offset11_of(word: u16) -> u16
    ensures { result ≡ low 11 word }
{
    sign_extend(word % VALUES11, HALF11)
}

// The last operand of ADD and AND, if its bits can be one: a register needs bits 3 and 4 zero.
fn last_operand(word: u16) -> Option<ImmOrReg>
    ensures { result ≡ last_of word }
{
    if word / codes::BIT_5 % 2 == 1 {
        return Some(ImmOrReg::Imm(imm5_of(word)));
    }
    if word / codes::BIT_3 % 4 == 0 {
        return Some(ImmOrReg::Reg(word % codes::REGISTERS));
    }
    None
}

// JSR by bit 11, else JSRR with no other bit.
fn decode_jsr(word: u16) -> Option<AsmInstr>
    requires { word / 4096 ≡ 4 }
    ensures { meant_if result ≡ disassemble word }
{
    if word / codes::BIT_11 % 2 == 1 {
        return Some(AsmInstr::JSR(offset11_of(word)));
    }
    if word / codes::BIT_9 % 4 == 0 {
        if word % codes::BIT_6 == 0 {
            return Some(AsmInstr::JSRR(word / codes::BIT_6 % codes::REGISTERS));
        }
    }
    None
}

// JMP and RET, with no other bit.
fn decode_jmp(word: u16) -> Option<AsmInstr>
    requires { word / 4096 ≡ 12 }
    ensures { meant_if result ≡ disassemble word }
{
    let reg = word / codes::BIT_6 % codes::REGISTERS;
    if word / codes::BIT_9 % codes::REGISTERS == 0 {
        if word % codes::BIT_6 == 0 {
            if reg == codes::LINK {
                return Some(AsmInstr::RET);
            }
            return Some(AsmInstr::JMP(reg));
        }
    }
    None
}

// A trap by its name, or by its number.
fn decode_trap(word: u16) -> Option<AsmInstr>
    requires { word / 4096 ≡ 15 }
    ensures { meant_if result ≡ disassemble word }
{
    let vect = word % codes::VECTORS;
    if word / codes::VECTORS == codes::TRAP_BYTE {
        match vect {
            codes::GETC => Some(AsmInstr::GETC),
            codes::PUTC => Some(AsmInstr::PUTC),
            codes::PUTS => Some(AsmInstr::PUTS),
            codes::IN => Some(AsmInstr::IN),
            codes::PUTSP => Some(AsmInstr::PUTSP),
            codes::HALT => Some(AsmInstr::HALT),
            _ => Some(AsmInstr::TRAP(vect)),
        }
    } else {
        None
    }
}

// The instruction that encodes to exactly this word, if there is one.
pub fn try_disassemble_line(word: u16) -> Option<AsmInstr>
    ensures { meant_if result ≡ disassemble word }
{
    if word < codes::LEAST_WORD {
        return None;
    }
    let dr = word / codes::BIT_9 % codes::REGISTERS;
    let sr = word / codes::BIT_6 % codes::REGISTERS;
    let opcode = word / codes::BIT_12;
    match opcode {
        codes::BR => Some(AsmInstr::BR(dr, offset9_of(word))),
        codes::ADD => Some(AsmInstr::ADD(dr, sr, last_operand(word)?)),
        codes::LD => Some(AsmInstr::LD(dr, offset9_of(word))),
        codes::ST => Some(AsmInstr::ST(dr, offset9_of(word))),
        codes::JSR => decode_jsr(word),
        codes::AND => Some(AsmInstr::AND(dr, sr, last_operand(word)?)),
        codes::LDR => Some(AsmInstr::LDR(dr, sr, offset6_of(word))),
        codes::STR => Some(AsmInstr::STR(dr, sr, offset6_of(word))),
        codes::RTI => {
            if word == codes::RTI_WORD {
                Some(AsmInstr::RTI)
            } else {
                None
            }
        }
        codes::NOT => {
            if word % codes::BIT_6 == codes::NOT_LOW {
                Some(AsmInstr::NOT(dr, sr))
            } else {
                None
            }
        }
        codes::LDI => Some(AsmInstr::LDI(dr, offset9_of(word))),
        codes::STI => Some(AsmInstr::STI(dr, offset9_of(word))),
        codes::JMP => decode_jmp(word),
        codes::RESERVED => None,
        codes::LEA => Some(AsmInstr::LEA(dr, offset9_of(word))),
        _ => decode_trap(word), // TRAP: four bits hold no more
    }
}

// The same, with a fill for every other word.
pub fn disassemble_line(word: u16) -> Line
    ensures { meant_line result ≡ line word }
{
    match try_disassemble_line(word) {
        Some(instr) => Line::Instr(instr),
        None => Line::Fill(word),
    }
}
