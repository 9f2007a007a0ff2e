// Document 01's refusals by name, and a refusal with its places. What each means, and where its place is, stands in docs/RULES.md; the rules' own table is `Answers.refusals`.
// Numbers and no enum: the rules, their theorems and the calls for C speak of numbers.
#![tactic(auto)]

ghost use Rattle.std.specs.Prelude.{◌≡◌};
ghost use Rattle.base_refusals.specs.Refusals.{refusal_at};

// Tokens, after LexErr of the Rust.
pub const DOES_NOT_FIT_U16: u16 = 1;

pub const DOES_NOT_FIT_I16: u16 = 2;

pub const INVALID_HEX: u16 = 3;

pub const INVALID_NUMERIC: u16 = 4;

pub const INVALID_HEX_EMPTY: u16 = 5;

pub const INVALID_DEC_EMPTY: u16 = 6;

pub const UNCLOSED_STR_LIT: u16 = 7;

pub const STR_LIT_TOO_BIG: u16 = 8;

pub const INVALID_REG: u16 = 9;

pub const INVALID_SYMBOL: u16 = 10;

// The source as a whole.
pub const SOURCE_TOO_LONG: u16 = 11;

pub const NON_ASCII: u16 = 12;

// Statements.
pub const BAD_STATEMENT: u16 = 13;

pub const BAD_OPERAND: u16 = 14;

pub const OPERAND_RANGE: u16 = 15;

pub const NAME_TOO_LONG: u16 = 16;

// Both passes and the link, after AsmErrKind of the Rust.
pub const UNDET_ADDR_LABEL: u16 = 20;

pub const UNDET_ADDR_STMT: u16 = 21;

pub const UNCLOSED_ORIG: u16 = 22;

pub const UNOPENED_ORIG: u16 = 23;

pub const OVERLAPPING_ORIG: u16 = 24;

pub const OVERLAPPING_LABELS: u16 = 25;

pub const WRAPPING_BLOCK: u16 = 26;

pub const BLOCK_IN_IO: u16 = 27;

pub const OVERLAPPING_BLOCKS: u16 = 28;

pub const OFFSET_NEW_ERR: u16 = 29;

pub const OFFSET_EXTERNAL: u16 = 30;

pub const COULD_NOT_FIND_LABEL: u16 = 31;

// Capacities, and lent buffers.
pub const TABLE_FULL: u16 = 40;

pub const NO_ROOM: u16 = 41;

pub const SHORT_BUFFER: u16 = 42;

pub const BAD_OBJECT: u16 = 43;

// Stored bytes, and writing.
pub const BAD_FIELD: u16 = 50;

pub const NO_WRITE_ROOM: u16 = 51;

// A refusal that has one place: its number and the place.
#[derive(Clone, Copy)]
pub struct Fault {
    pub number: u16,
    pub start: usize,
    pub end: usize,
}

// A refusal: its number and its two places, of which one that it does not have is 0 and 0.
#[derive(Clone, Copy)]
pub struct Refusal {
    pub number: u16,
    pub start: usize,
    pub end: usize,
    pub start2: usize,
    pub end2: usize,
}

impl From<Fault> for Refusal {
    ghost from_gives = { λ f r. r ≡ refusal_at f.number f.start f.end };

    fn from(fault: Fault) -> Refusal {
        Refusal {
            number: fault.number,
            start: fault.start,
            end: fault.end,
            start2: 0,
            end2: 0,
        }
    }
}
