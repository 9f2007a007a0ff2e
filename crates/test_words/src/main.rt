// Goes through all 65,536 words: disassembles each, encodes it again, and compares what it disassembles to with a stored list.
#![tactic(auto)]

ghost use Rattle.std.specs.Prelude.{◌<◌};

use isa::disassembly::Line;
use isa::{AsmInstr, ImmOrReg};
use lc3_input::STDOUT_FILENO;
use std::fs::File;

// The names of the list, five letters each.
const NAMES: [u8; 130] =
    *b"ADD  AND  BR   JMP  JSR  JSRR LD   LDI  LDR  LEA  NOT  RET  RTI  ST   STI  STR  TRAP NOP  GETC OUT  PUTC PUTS IN   PUTSPHALT .FILL";

// A line of disassembly in the columns of the list: a name's place among these, the operands at bits 9 to 11 and 6 to 8, the last operand.
#[derive(Clone, Copy)]
struct Row {
    name: u8,
    first: u8,
    second: u8,
    mark: u8,
    last: u16,
}

// What is counted so far.
#[derive(Clone, Copy)]
struct Counts {
    words: u32,
    instructions: u32,
    fills: u32,
    listed: u32,
    apart: u32,
    wrong: u32,
}

// A digit of an octal number.
fn digit(n: u16) -> u8 {
    48 + (n % 8) as u8
}

fn plain(name: u8) -> Row {
    Row {
        name,
        first: b'-',
        second: b'-',
        mark: b'-',
        last: 0,
    }
}

fn numbered(name: u8, last: u16) -> Row {
    Row {
        name,
        first: b'-',
        second: b'-',
        mark: b'#',
        last,
    }
}

fn based(name: u8, reg: u16) -> Row {
    Row {
        name,
        first: b'-',
        second: digit(reg),
        mark: b'-',
        last: 0,
    }
}

fn offset(name: u8, first: u16, last: u16) -> Row {
    Row {
        name,
        first: digit(first),
        second: b'-',
        mark: b'#',
        last,
    }
}

fn three(name: u8, first: u16, second: u16, mark: u8, last: u16) -> Row {
    Row {
        name,
        first: digit(first),
        second: digit(second),
        mark,
        last,
    }
}

fn operated(name: u8, dr: u16, sr: u16, operand: ImmOrReg) -> Row {
    match operand {
        ImmOrReg::Imm(d) => three(name, dr, sr, b'#', d),
        ImmOrReg::Reg(r) => three(name, dr, sr, b'R', r),
    }
}

fn shown_instr(instr: AsmInstr) -> Row {
    match instr {
        AsmInstr::ADD(dr, sr, o) => operated(0, dr, sr, o),
        AsmInstr::AND(dr, sr, o) => operated(1, dr, sr, o),
        AsmInstr::BR(cc, off) => offset(2, cc, off),
        AsmInstr::JMP(br) => based(3, br),
        AsmInstr::JSR(off) => numbered(4, off),
        AsmInstr::JSRR(br) => based(5, br),
        AsmInstr::LD(dr, off) => offset(6, dr, off),
        AsmInstr::LDI(dr, off) => offset(7, dr, off),
        AsmInstr::LDR(dr, br, off) => three(8, dr, br, b'#', off),
        AsmInstr::LEA(dr, off) => offset(9, dr, off),
        AsmInstr::NOT(dr, sr) => three(10, dr, sr, b'-', 0),
        AsmInstr::RET => plain(11),
        AsmInstr::RTI => plain(12),
        AsmInstr::ST(sr, off) => offset(13, sr, off),
        AsmInstr::STI(sr, off) => offset(14, sr, off),
        AsmInstr::STR(sr, br, off) => three(15, sr, br, b'#', off),
        AsmInstr::TRAP(vect) => numbered(16, vect),
        AsmInstr::NOP(off) => numbered(17, off),
        AsmInstr::GETC => plain(18),
        AsmInstr::OUT => plain(19),
        AsmInstr::PUTC => plain(20),
        AsmInstr::PUTS => plain(21),
        AsmInstr::IN => plain(22),
        AsmInstr::PUTSP => plain(23),
        AsmInstr::HALT => plain(24),
    }
}

fn shown(line: Line) -> Row {
    match line {
        Line::Instr(instr) => shown_instr(instr),
        Line::Fill(w) => numbered(25, w),
    }
}

fn byte_at(list: &[u8], i: usize) -> u8 {
    if i < list.len() { list[i] } else { 0 }
}

fn hex_digit(b: u8) -> u16
    ensures { result < 16 }
{
    match b {
        48..=57 => (b - 48) as u16,
        65..=70 => (b - 55) as u16,
        _ => 0,
    }
}

// Four hexadecimal digits.
fn hex_at(list: &[u8], at: usize) -> u16
    requires { at < 65536 }
{
    let high = hex_digit(byte_at(list, at)) * 16 + hex_digit(byte_at(list, at + 1));
    let low = hex_digit(byte_at(list, at + 2)) * 16 + hex_digit(byte_at(list, at + 3));
    high * 256 + low
}

// A letter of a name.
fn letter(name: u8, j: usize) -> u8
    requires { j < 5 }
{
    let i = (name as usize) * 5 + j;
    if i < 130 { NAMES[i] } else { 0 }
}

fn is_name(list: &[u8], at: usize, name: u8) -> bool
    requires { at < 65536 }
{
    (letter(name, 0) == byte_at(list, at))
        & (letter(name, 1) == byte_at(list, at + 1))
        & (letter(name, 2) == byte_at(list, at + 2))
        & (letter(name, 3) == byte_at(list, at + 3))
        & (letter(name, 4) == byte_at(list, at + 4))
}

// The run of the list at this place has this line, so many words after its first.
fn agrees(list: &[u8], at: usize, step: u16, row: Row) -> bool
    requires { at < 65500 }
{
    let same_name = is_name(list, at + 10, row.name);
    let same_operands = (row.first == byte_at(list, at + 16))
        & (row.second == byte_at(list, at + 18))
        & (row.mark == byte_at(list, at + 20));
    let last = std::num::wrapping_add_u16(hex_at(list, at + 21), step);
    same_name & same_operands & (row.last == last)
}

// The eight words that the crate shows as an instruction of another word.
fn is_apart(word: u16) -> bool {
    (word / 512 == 100) & (word % 64 == 0)
}

fn encodes_back(instr: AsmInstr, word: u16) -> bool {
    isa::encode(instr) == Some(word)
}

fn one_more(n: u32) -> u32 {
    std::num::wrapping_add_u32(n, 1)
}

fn report(word: u16, counts: Counts) -> Counts {
    io::write_all(STDOUT_FILENO, b"differs ");
    io::print_hex(STDOUT_FILENO, word as u64, 4);
    io::write_all(STDOUT_FILENO, b"\n");
    let mut c = counts;
    c.wrong = one_more(counts.wrong);
    c
}

// There and back: the word of the instruction, or of the fill.
fn count_back(word: u16, line: Line, counts: Counts) -> Counts {
    let mut c = counts;
    match line {
        Line::Instr(instr) => {
            if encodes_back(instr, word) {
                c.instructions = one_more(counts.instructions);
                return c;
            }
        }
        Line::Fill(w) => {
            if w == word {
                c.fills = one_more(counts.fills);
                return c;
            }
        }
    }
    report(word, counts)
}

fn count_listed(list: &[u8], at: usize, step: u16, word: u16, row: Row, counts: Counts) -> Counts
    requires { at < 65500 }
{
    let mut c = counts;
    if is_apart(word) {
        c.apart = one_more(counts.apart);
        return c;
    }
    if agrees(list, at, step, row) {
        c.listed = one_more(counts.listed);
        return c;
    }
    report(word, counts)
}

fn count_word(list: &[u8], at: usize, step: u16, word: u16, counts: Counts) -> Counts
    requires { at < 65500 }
{
    let line = isa::disassembly::disassemble_line(word);
    let mut c = count_back(word, line, counts);
    // the list leaves out no word
    if word as u32 != c.words {
        c = report(word, c);
    }
    c.words = one_more(c.words);
    count_listed(list, at, step, word, shown(line), c)
}

// Every word of the run at this place.
fn count_run(list: &[u8], at: usize, counts: Counts) -> Counts
    requires { at < 65500 }
{
    let first = hex_at(list, at);
    let n = hex_at(list, at + 5);
    let mut c = counts;
    for i in 0..n {
        let word = std::num::wrapping_add_u16(first, i);
        c = count_word(list, at, i, word, c);
    }
    c
}

// Every run of the list, a line of 26 bytes each.
fn count_list(list: &[u8]) -> Counts {
    let mut c = Counts {
        words: 0,
        instructions: 0,
        fills: 0,
        listed: 0,
        apart: 0,
        wrong: 0,
    };
    for at in (0..list.len().min(65500)).step_by(26) {
        c = count_run(list, at, c);
    }
    c
}

fn print_count(n: u32, what: &[u8]) {
    io::print_decimal(STDOUT_FILENO, n as u64);
    io::write_all(STDOUT_FILENO, what);
}

// Goes through the list of an open file.
fn replay_open(mut file: File) {
    let mut buffer = io::large_buffer();
    let n = lc3_input::fill(&mut file, &mut buffer);
    let c = count_list(&buffer[0..n]);
    print_count(c.words, b" words\n");
    print_count(c.instructions, b" instructions that encode to their word\n");
    print_count(c.fills, b" fills of their word\n");
    print_count(c.listed, b" as listed\n");
    print_count(c.apart, b" set apart\n");
    print_count(c.wrong, b" wrong\n");
}

fn main(rt: HostRuntime) {
    let path = "list";
    match File::open(&rt, path) {
        Ok(file) => replay_open(file),
        Err(error) => lc3_input::tell_unopened(&rt, path, error),
    }
}
