// Instructions and their words, both ways, after src/ast/asm.rs and src/ast/sim.rs.
#![tactic(auto)]

ghost use Rattle.std.specs.Prelude.{◌≡◌, ◌+◌, ◌≤◌, ◌<◌};
ghost use Rattle.std.proofs.Math.Option.{some};
ghost use Rattle.rules.specs.Words.{DR, SR, reg_or_imm, num, unsigned, register, value, bits, ◌⊕◌, word};
ghost use Rattle.isa_fields.specs.Fields.{encoded, size, inside};
ghost use Rattle.isa.specs.Instructions.{operand_of, meant};

mod codes; // codes.rt: the numbers of the instruction set by name
pub mod disassembly; // disassembly.rt: from a word back to its instruction

// A register, from 0 to 7.
pub type Reg = u16;

// n, z and p as three bits.
pub type CondCode = u16;

// A signed number modulo 65536.
pub type IOffset = u16;

// A trap vector, from 0 to 255.
pub type TrapVect8 = u16;

#[derive(Clone, Copy)]
pub enum ImmOrReg {
    Imm(IOffset),
    Reg(Reg),
}

// An instruction with its offsets already found.
#[derive(Clone, Copy)]
pub enum AsmInstr {
    ADD(Reg, Reg, ImmOrReg),
    AND(Reg, Reg, ImmOrReg),
    BR(CondCode, IOffset),
    JMP(Reg),
    JSR(IOffset),
    JSRR(Reg),
    LD(Reg, IOffset),
    LDI(Reg, IOffset),
    LDR(Reg, Reg, IOffset),
    LEA(Reg, IOffset),
    NOT(Reg, Reg),
    RET,
    RTI,
    ST(Reg, IOffset),
    STI(Reg, IOffset),
    STR(Reg, Reg, IOffset),
    TRAP(TrapVect8),
    NOP(IOffset),
    GETC,
    OUT,
    PUTC,
    PUTS,
    IN,
    PUTSP,
    HALT,
}

// The last operand of ADD and AND: a register, or bit 5 and an imm5.
fn imm_or_reg(operand: ImmOrReg) -> Option<u16>
    ensures { result ≡ encoded (bits reg_or_imm (operand_of operand)) }
{
    match operand {
        ImmOrReg::Imm(d) => Some(codes::BIT_5 + isa_fields::low5(d)?),
        ImmOrReg::Reg(r) => { if r <= codes::LAST_REG { Some(r) } else { None } }
    }
}

// A word with a register at bits 9 to 11, one at bits 6 to 8, and the low bits; a register that is not there is 0.
fn join_bits(word: u16, first: Reg, second: Reg, low: Option<u16>) -> Option<u16>
    requires { word + size low ≤ 61503 }
    ensures { result ≡ encoded (some word ⊕ bits DR (register first) ⊕ bits SR (register second) ⊕ inside low) }
{
    if codes::LAST_REG < first {
        return None;
    }
    if codes::LAST_REG < second {
        return None;
    }
    Some(word + first * codes::BIT_9 + second * codes::BIT_6 + low?)
}

// A trap by its vector.
fn trap_word(vect: TrapVect8) -> Option<u16>
    ensures { result ≡ encoded (some 0xf000 ⊕ bits (num (unsigned 8)) (value vect)) }
{
    if vect <= codes::LAST_VECTOR {
        Some(codes::TRAP_WORD + vect)
    } else {
        None
    }
}

// The word of an instruction, or that an operand lies outside its field. It is for callers who have an instruction: assembling makes none, but adds the operands of a
// statement to the word of its row as they are read (`parse_field`, `pass2_encode`). Both follow the rules' one table.
pub fn encode(instr: AsmInstr) -> Option<u16>
    ensures { result ≡ encoded (word (meant instr)) }
{
    match instr {
        AsmInstr::ADD(dr, sr1, sr2) => join_bits(codes::ADD_WORD, dr, sr1, imm_or_reg(sr2)),
        AsmInstr::AND(dr, sr1, sr2) => join_bits(codes::AND_WORD, dr, sr1, imm_or_reg(sr2)),
        AsmInstr::BR(cc, off) => join_bits(codes::BR_WORD, cc, 0, isa_fields::low9(off)),
        AsmInstr::JMP(br) => join_bits(codes::JMP_WORD, 0, br, Some(0)),
        AsmInstr::JSR(off) => join_bits(codes::JSR_WORD, 0, 0, isa_fields::low11(off)),
        AsmInstr::JSRR(br) => join_bits(codes::JSRR_WORD, 0, br, Some(0)),
        AsmInstr::LD(dr, off) => join_bits(codes::LD_WORD, dr, 0, isa_fields::low9(off)),
        AsmInstr::LDI(dr, off) => join_bits(codes::LDI_WORD, dr, 0, isa_fields::low9(off)),
        AsmInstr::LDR(dr, br, off) => join_bits(codes::LDR_WORD, dr, br, isa_fields::low6(off)),
        AsmInstr::LEA(dr, off) => join_bits(codes::LEA_WORD, dr, 0, isa_fields::low9(off)),
        AsmInstr::NOT(dr, sr) => join_bits(codes::NOT_WORD, dr, sr, Some(codes::NOT_LOW)),
        AsmInstr::RET => Some(codes::RET_WORD),
        AsmInstr::RTI => Some(codes::RTI_WORD),
        AsmInstr::ST(sr, off) => join_bits(codes::ST_WORD, sr, 0, isa_fields::low9(off)),
        AsmInstr::STI(sr, off) => join_bits(codes::STI_WORD, sr, 0, isa_fields::low9(off)),
        AsmInstr::STR(sr, br, off) => join_bits(codes::STR_WORD, sr, br, isa_fields::low6(off)),
        AsmInstr::TRAP(vect) => trap_word(vect),
        AsmInstr::NOP(off) => join_bits(codes::BR_WORD, 0, 0, isa_fields::low9(off)),
        AsmInstr::GETC => Some(codes::GETC_WORD),
        AsmInstr::OUT => Some(codes::PUTC_WORD),
        AsmInstr::PUTC => Some(codes::PUTC_WORD),
        AsmInstr::PUTS => Some(codes::PUTS_WORD),
        AsmInstr::IN => Some(codes::IN_WORD),
        AsmInstr::PUTSP => Some(codes::PUTSP_WORD),
        AsmInstr::HALT => Some(codes::HALT_WORD),
    }
}
