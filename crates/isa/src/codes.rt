// The numbers of the instruction set by name: bits, opcodes, traps, and words with all operands zero.

// The bits where a field begins, or that stand alone: 3 and 4 are zero beside a register, 5 is set beside an imm5, 6 and 9 begin the registers, 11 is set in JSR, and at 12 the opcode begins.
pub const BIT_3: u16 = 0x0008;

pub const BIT_5: u16 = 0x0020;

pub const BIT_6: u16 = 0x0040;

pub const BIT_9: u16 = 0x0200;

pub const BIT_11: u16 = 0x0800;

pub const BIT_12: u16 = 0x1000;

// How many registers there are, the last, and the one that RET jumps by.
pub const REGISTERS: u16 = 8;

pub const LAST_REG: u16 = REGISTERS - 1;

pub const LINK: u16 = 7;

// How many trap vectors there are, and the last.
pub const VECTORS: u16 = 256;

pub const LAST_VECTOR: u16 = VECTORS - 1;

// The opcodes; RESERVED is no instruction's.
pub const BR: u16 = 0;

pub const ADD: u16 = 1;

pub const LD: u16 = 2;

pub const ST: u16 = 3;

pub const JSR: u16 = 4;

pub const AND: u16 = 5;

pub const LDR: u16 = 6;

pub const STR: u16 = 7;

pub const RTI: u16 = 8;

pub const NOT: u16 = 9;

pub const LDI: u16 = 10;

pub const STI: u16 = 11;

pub const JMP: u16 = 12;

pub const RESERVED: u16 = 13;

pub const LEA: u16 = 14;

pub const TRAP: u16 = 15;

// The vectors of the traps with names; OUT is PUTC.
pub const GETC: u16 = 0x20;

pub const PUTC: u16 = 0x21;

pub const PUTS: u16 = 0x22;

pub const IN: u16 = 0x23;

pub const PUTSP: u16 = 0x24;

pub const HALT: u16 = 0x25;

// The words of the instructions with all operands zero; NOP's is BR's.
pub const BR_WORD: u16 = BR * BIT_12;

pub const ADD_WORD: u16 = ADD * BIT_12;

pub const LD_WORD: u16 = LD * BIT_12;

pub const ST_WORD: u16 = ST * BIT_12;

pub const JSRR_WORD: u16 = JSR * BIT_12;

pub const JSR_WORD: u16 = JSRR_WORD + BIT_11;

pub const AND_WORD: u16 = AND * BIT_12;

pub const LDR_WORD: u16 = LDR * BIT_12;

pub const STR_WORD: u16 = STR * BIT_12;

pub const RTI_WORD: u16 = RTI * BIT_12;

pub const NOT_WORD: u16 = NOT * BIT_12;

pub const LDI_WORD: u16 = LDI * BIT_12;

pub const STI_WORD: u16 = STI * BIT_12;

pub const JMP_WORD: u16 = JMP * BIT_12;

pub const RET_WORD: u16 = JMP_WORD + LINK * BIT_6;

pub const LEA_WORD: u16 = LEA * BIT_12;

pub const TRAP_WORD: u16 = TRAP * BIT_12;

pub const GETC_WORD: u16 = TRAP_WORD + GETC;

pub const PUTC_WORD: u16 = TRAP_WORD + PUTC;

pub const PUTS_WORD: u16 = TRAP_WORD + PUTS;

pub const IN_WORD: u16 = TRAP_WORD + IN;

pub const PUTSP_WORD: u16 = TRAP_WORD + PUTSP;

pub const HALT_WORD: u16 = TRAP_WORD + HALT;

// The least word that is an instruction: below it a branch has no flag.
pub const LEAST_WORD: u16 = BIT_9;

// The low bits of NOT, all of them set.
pub const NOT_LOW: u16 = BIT_6 - 1;

// A trap's word without its vector.
pub const TRAP_BYTE: u16 = TRAP_WORD / VECTORS;
