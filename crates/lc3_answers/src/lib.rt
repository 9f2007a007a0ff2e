// The answers of the calls from other languages, as nine numbers: a number, two spans and four counts.
#![tactic(auto)]

ghost use Rattle.std.specs.Prelude.{◌≡◌, ◌+◌, ◌*◌, ◌≤◌, length, get_or};
ghost use Rattle.rules.specs.Base.{span};
ghost use Rattle.isa.specs.Instructions.{meant, operand_of};
ghost use Rattle.isa.specs.Disassembly.{meant_line};
ghost use Rattle.lex_token.specs.Flat.{lexeme};
ghost use Rattle.object_answer.specs.Meant.{meant as meant_answer};
ghost use Rattle.object_lookup.specs.Told.{said};
ghost use Rattle.lc3_answers.specs.Told.{reply, row, four, counted, refused_at, token_told, lexeme_told, statements_told, written_told, said_told, RowIn, found_told, operand_told, instr_told, line_told};

use base_refusals::{BAD_OBJECT, Fault, SHORT_BUFFER};
use isa::disassembly::Line;
use isa::{AsmInstr, ImmOrReg};
use lex_token::{FAULT, Lexeme};
use object::Label;
use object_answer::Answer;
use object_check::ObjectErr;

#[derive(Clone, Copy)]
pub struct Reply {
    pub number: u64,
    pub start: u64,
    pub end: u64,
    pub start2: u64,
    pub end2: u64,
    pub first: u64,
    pub second: u64,
    pub third: u64,
    pub fourth: u64,
}

// The nine numbers, to where they are asked for.
pub fn put_answer(out: &mut [u64; 9], r: Reply)
    ensures { out.new ≡ row r }
{
    *out = [
        r.number, r.start, r.end, r.start2, r.end2, r.first, r.second, r.third, r.fourth,
    ];
}

// Acceptance with these counts.
fn accepted(first: u64, second: u64, third: u64, fourth: u64) -> Reply
    ensures { result ≡ reply (counted first second third fourth) }
{
    Reply {
        number: 0,
        start: 0,
        end: 0,
        start2: 0,
        end2: 0,
        first,
        second,
        third,
        fourth,
    }
}

// A refusal with one place.
fn refused(number: u64, start: usize, end: usize) -> Reply
    ensures { result ≡ reply (refused_at number (span start end)) }
{
    Reply {
        number,
        start: start as u64,
        end: end as u64,
        start2: 0,
        end2: 0,
        first: 0,
        second: 0,
        third: 0,
        fourth: 0,
    }
}

// The answer of a call that makes an object, with two places and four counts.
pub fn told_answer(a: Answer) -> Reply
    ensures { result ≡ reply (meant_answer a) }
{
    Reply {
        number: u64::from(a.number),
        start: a.start as u64,
        end: a.end as u64,
        start2: a.start2 as u64,
        end2: a.end2 as u64,
        first: a.blocks as u64,
        second: a.words as u64,
        third: a.labels as u64,
        fourth: a.relocations as u64,
    }
}

// A token by its sort and value, at its place.
fn told_token(sort: u64, value: u64, start: usize, end: usize) -> Reply
    ensures { result ≡ reply (token_told (lexeme sort value start end)) }
{
    Reply {
        number: 0,
        start: start as u64,
        end: end as u64,
        start2: 0,
        end2: 0,
        first: sort,
        second: value,
        third: 0,
        fourth: 0,
    }
}

// The answer of looking for the next token, from its four numbers.
pub fn told_lexeme(t: Lexeme) -> Reply
    ensures { result ≡ reply (lexeme_told t) }
{
    if t.sort == FAULT {
        return refused(u64::from(t.value), t.start, t.end);
    }
    told_token(u64::from(t.sort), u64::from(t.value), t.start, t.end)
}

// The answer of reading all statements.
pub fn told_statements(statements: Result<(), Fault>) -> Reply
    ensures { result ≡ reply (statements_told statements) }
{
    match statements {
        Ok(()) => accepted(0, 0, 0, 0),
        Err(fault) => refused(u64::from(fault.number), fault.start, fault.end),
    }
}

// The answer of writing bytes: a listing, a stored object.
pub fn told_written(written: Result<usize, u16>) -> Reply
    ensures { result ≡ reply (written_told written) }
{
    match written {
        Ok(n) => accepted(n as u64, 0, 0, 0),
        Err(number) => refused(u64::from(number), 0, 0),
    }
}

// A place: how many lines stand before it, and how many bytes before it in its line.
pub fn told_place(lines: usize, bytes: usize) -> Reply
    ensures { result ≡ reply (counted lines bytes 0 0) }
{
    accepted(lines as u64, bytes as u64, 0, 0)
}

// The answer of looking up a name.
pub fn told_said(s: Result<Option<Label>, ObjectErr>) -> Reply
    ensures { result ≡ reply (said_told (said s)) }
{
    match s {
        Ok(Some(Label::Defined(address))) => accepted(1, 0, u64::from(address), 0),
        Ok(Some(Label::External)) => accepted(1, 1, 0, 0),
        Ok(None) => accepted(0, 0, 0, 0),
        Err(ObjectErr::ShortBuffer) => refused(u64::from(SHORT_BUFFER), 0, 0),
        Err(ObjectErr::BadObject) => refused(u64::from(BAD_OBJECT), 0, 0),
    }
}

// A label row, with its name's start and length.
fn told_row(labels: &[u32], k: usize) -> Reply
    requires { k * 4 + 4 ≤ length labels.now }
    ensures { result ≡ reply (counted 1 k (get_or labels.now (k * 4 + 2) 0) (get_or labels.now (k * 4 + 3) 0)) }
{
    let i = k * 4;
    accepted(
        1,
        k as u64,
        u64::from(labels[i + 2]),
        u64::from(labels[i + 3]),
    )
}

// The answer of looking up an address.
pub fn told_found(labels: &[u32], found: Result<Option<usize>, ObjectErr>) -> Reply
    requires { RowIn (length labels.now) found }
    ensures { result ≡ reply (found_told labels.now found) }
{
    match found {
        Ok(Some(k)) => told_row(labels, k),
        Ok(None) => accepted(0, 0, 0, 0),
        Err(ObjectErr::ShortBuffer) => refused(u64::from(SHORT_BUFFER), 0, 0),
        Err(ObjectErr::BadObject) => refused(u64::from(BAD_OBJECT), 0, 0),
    }
}

// The last operand of ADD and AND: a register's number, or 65536 and an immediate's bits.
fn told_operand(operand: ImmOrReg) -> u64
    ensures { result ≡ operand_told (operand_of operand) }
{
    match operand {
        ImmOrReg::Imm(d) => 65536 + u64::from(d),
        ImmOrReg::Reg(r) => u64::from(r),
    }
}

// An instruction by its code and operands.
fn shown(code: u64, a: u16, b: u16, c: u16) -> Reply
    ensures { result ≡ reply (counted code a b c) }
{
    accepted(code, u64::from(a), u64::from(b), u64::from(c))
}

fn shown_last(code: u64, a: u16, b: u16, c: ImmOrReg) -> Reply
    ensures { result ≡ reply (counted code a b (operand_told (operand_of c))) }
{
    accepted(code, u64::from(a), u64::from(b), told_operand(c))
}

fn told_instr(instr: AsmInstr) -> Reply
    ensures { result ≡ reply (instr_told (meant instr)) }
{
    match instr {
        AsmInstr::ADD(d, s, o) => shown_last(0, d, s, o),
        AsmInstr::AND(d, s, o) => shown_last(1, d, s, o),
        AsmInstr::BR(nzp, o) => shown(2, nzp, o, 0),
        AsmInstr::JMP(b) => shown(3, b, 0, 0),
        AsmInstr::JSR(o) => shown(4, o, 0, 0),
        AsmInstr::JSRR(b) => shown(5, b, 0, 0),
        AsmInstr::LD(d, o) => shown(6, d, o, 0),
        AsmInstr::LDI(d, o) => shown(7, d, o, 0),
        AsmInstr::LDR(d, b, o) => shown(8, d, b, o),
        AsmInstr::LEA(d, o) => shown(9, d, o, 0),
        AsmInstr::NOT(d, s) => shown(10, d, s, 0),
        AsmInstr::RET => shown(11, 0, 0, 0),
        AsmInstr::RTI => shown(12, 0, 0, 0),
        AsmInstr::ST(s, o) => shown(13, s, o, 0),
        AsmInstr::STI(s, o) => shown(14, s, o, 0),
        AsmInstr::STR(s, b, o) => shown(15, s, b, o),
        AsmInstr::TRAP(v) => shown(16, v, 0, 0),
        AsmInstr::NOP(o) => shown(17, o, 0, 0),
        AsmInstr::GETC => shown(18, 0, 0, 0),
        AsmInstr::OUT => shown(19, 0, 0, 0),
        AsmInstr::PUTC => shown(20, 0, 0, 0),
        AsmInstr::PUTS => shown(21, 0, 0, 0),
        AsmInstr::IN => shown(22, 0, 0, 0),
        AsmInstr::PUTSP => shown(23, 0, 0, 0),
        AsmInstr::HALT => shown(24, 0, 0, 0),
    }
}

// The answer of disassembly.
pub fn told_line(line: Line) -> Reply
    ensures { result ≡ reply (line_told (meant_line line)) }
{
    match line {
        Line::Instr(instr) => told_instr(instr),
        Line::Fill(word) => shown(255, word, 0, 0),
    }
}
