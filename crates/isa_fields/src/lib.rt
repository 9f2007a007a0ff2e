// Numbers in the fields of a word: which fit, and their bits; a label operand's offset. A signed number is kept modulo 65536, as its sixteen bits.
#![tactic(auto)]

ghost use Rattle.std.specs.Prelude.{◌≡◌, ◌<◌};
ghost use Rattle.rules.specs.Base.{nowhere};
ghost use Rattle.rules.specs.Words.{range, signed, bits, num, value, reach, offset};
ghost use Rattle.isa_fields.specs.Fields.{encoded, signed16, meant_offset, tested};

// Why there is no offset: a label lies too far for the field.
#[derive(Clone, Copy)]
pub enum OffsetNewErr {
    CannotFitSigned,
}

// The largest word, the first with its sign bit, and how many words there are.
pub const WORD_MOST: u16 = 65535;

const SIGN: u16 = 32768;

const WORD_VALUES: i32 = 65536;

// The signed fields, by their bits: how many values one has, their half, which is the size of its least number, and its largest number.
pub const VALUES5: u16 = 32;

pub const HALF5: u16 = VALUES5 / 2;

const MOST5: u16 = HALF5 - 1;

pub const VALUES6: u16 = 64;

pub const HALF6: u16 = VALUES6 / 2;

const MOST6: u16 = HALF6 - 1;

pub const VALUES9: u16 = 512;

pub const HALF9: u16 = VALUES9 / 2;

const MOST9: u16 = HALF9 - 1;

pub const VALUES11: u16 = 2048;

pub const HALF11: u16 = VALUES11 / 2;

const MOST11: u16 = HALF11 - 1;

// The bounds of a label's offset as signed numbers.
const LEAST9: i32 = -(HALF9 as i32);

const GREATEST9: i32 = MOST9 as i32;

const LEAST11: i32 = -(HALF11 as i32);

const GREATEST11: i32 = MOST11 as i32;

// A number of sixteen bits: its bits in a field, if it lies from -low to high.
fn value_bits(d: u16, low: u16, high: u16, modulus: u16) -> Option<u16>
    requires { 0 < modulus }
    ensures { result ≡ encoded (bits (num (range low high modulus)) (value d)) }
{
    if d <= high {
        return Some(d % modulus);
    }
    if WORD_MOST - d < low {
        return Some(d % modulus);
    }
    None
}

// The low bits of a word, from a number of sixteen bits that fits them.
pub fn low5(d: u16) -> Option<u16>
    ensures { result ≡ encoded (bits (num (signed 5)) (value d)) }
{
    value_bits(d, HALF5, MOST5, VALUES5)
}

pub fn low6(d: u16) -> Option<u16>
    ensures { result ≡ encoded (bits (num (signed 6)) (value d)) }
{
    value_bits(d, HALF6, MOST6, VALUES6)
}

pub fn low9(d: u16) -> Option<u16>
    ensures { result ≡ encoded (bits (num (signed 9)) (value d)) }
{
    value_bits(d, HALF9, MOST9, VALUES9)
}

pub fn low11(d: u16) -> Option<u16>
    ensures { result ≡ encoded (bits (num (signed 11)) (value d)) }
{
    value_bits(d, HALF11, MOST11, VALUES11)
}

// Sixteen bits read as a signed offset.
fn signed_offset(d: u16) -> i32
    ensures { result ≡ signed16 d }
{
    if d < SIGN {
        d as i32
    } else {
        (d as i32) - WORD_VALUES
    }
}

// The label's address less the address after the instruction, where that lies from least to most.
fn replace_pc_offset(label: u16, pc: u16, least: i32, most: i32) -> Result<u16, OffsetNewErr>
    ensures { result ≡ tested least most (offset label pc) }
{
    let d = std::num::wrapping_sub_u16(label, pc);
    let s = signed_offset(d);
    if s < least {
        return Err(OffsetNewErr::CannotFitSigned);
    }
    if most < s {
        return Err(OffsetNewErr::CannotFitSigned);
    }
    Ok(d)
}

// The offset of BR, LD, LDI, LEA, NOP, ST and STI.
pub fn replace_pc_offset9(label: u16, pc: u16) -> Result<u16, OffsetNewErr>
    ensures { meant_offset result ≡ reach (signed 9) label pc nowhere }
{
    replace_pc_offset(label, pc, LEAST9, GREATEST9)
}

// The offset of JSR.
pub fn replace_pc_offset11(label: u16, pc: u16) -> Result<u16, OffsetNewErr>
    ensures { meant_offset result ≡ reach (signed 11) label pc nowhere }
{
    replace_pc_offset(label, pc, LEAST11, GREATEST11)
}
