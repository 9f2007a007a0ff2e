// The one word of an instruction or a .fill in pass two.
#![tactic(auto)]

ghost use Rattle.std.specs.Prelude.{◌≡◌, ℕ, ◌+◌, ◌*◌, ◌≤◌, ◌<◌, length, get_or, Err};
ghost use Rattle.rules.specs.Words.{instr, fill};
ghost use Rattle.rules.specs.Statements.{Stmt};
ghost use Rattle.rules.specs.Passes.{words_of};
ghost use Rattle.base_refusals.specs.Refusals.{fault};
ghost use Rattle.pass1_symbols.specs.Symbols.{symbols};
ghost use Rattle.pass1_symbols.specs.Adding.{Found};
ghost use Rattle.parse_meaning.specs.Reading.{Faithful};
ghost use Rattle.pass2_encode.specs.Worded.{label_of, told, Able, Aiming, Ready, offset_word, offset_word_to, address_word};

use base_refusals::Fault;
use parse::Statement;

// How many values an offset of nine bits has, and one of eleven.
const VALUES9: u16 = 512;

const VALUES11: u16 = 2048;

// Cell j of row k.
fn cell(rows: &[u32], k: usize, j: usize) -> u32
    requires { (k * 4 + 4 ≤ length rows.now) × (j < 4) }
    ensures { result ≡ get_or rows.now (k * 4 + j) 0 }
{
    let i = k * base_capacities::LABEL_CELLS + j;
    rows[i]
}

// A refusal at the statement's label operand.
fn refused(number: u16, st: Statement) -> Result<u16, Fault>
    ensures { result ≡ Err (fault number st.label_start st.label_end) }
{
    Err(Fault {
        number,
        start: st.label_start,
        end: st.label_end,
    })
}

// The row of the statement's label operand.
fn label_row(src: &[u8], rows: &[u32], n: usize, st: Statement) -> Option<usize>
    requires { Aiming rows.now src.now n st }
    ensures { Found n rows.now src.now (label_of src.now st).text result }
{
    let first = st.label_start as u32;
    let size = (st.label_end - st.label_start) as u32;
    pass1_symbols::find_symbol(rows, src, n, first, size)
}

// An instruction's word with the offset of a label at an address, from the address after the instruction: 29 outside its field.
fn offset_word(st: Statement, label: u16, next: u16) -> Result<u16, Fault>
    requires { Able st }
    ensures { told result ≡ offset_word st label next }
{
    if st.reach == parse_field::OFFSET9 {
        match isa_fields::replace_pc_offset9(label, next) {
            Ok(d) => {
                let bits = u32::from(d % VALUES9);
                return Ok((st.bits + bits) as u16);
            }
            Err(_) => {
                return refused(base_refusals::OFFSET_NEW_ERR, st);
            }
        }
    }
    match isa_fields::replace_pc_offset11(label, next) {
        Ok(d) => {
            let bits = u32::from(d % VALUES11);
            Ok((st.bits + bits) as u16)
        }
        Err(_) => refused(base_refusals::OFFSET_NEW_ERR, st),
    }
}

// The word of an instruction with a label operand: 31 where there is no such label, 30 of an external.
fn word_to_label(
    src: &[u8],
    rows: &[u32],
    n: usize,
    st: Statement,
    address: u32,
) -> Result<u16, Fault>
    requires { Aiming rows.now src.now n st × Able st × (address < 65535) }
    ensures { told result ≡ offset_word_to (symbols n rows.now src.now) src.now st (address + 1) }
{
    match label_row(src, rows, n, st) {
        Some(k) => {
            let flag = cell(rows, k, base_capacities::LABEL_FLAG);
            if flag == base_capacities::DEFINED {
                let label = cell(rows, k, base_capacities::LABEL_ADDRESS) as u16;
                let next = (address + 1) as u16;
                return offset_word(st, label, next);
            }
            refused(base_refusals::OFFSET_EXTERNAL, st)
        }
        None => refused(base_refusals::COULD_NOT_FIND_LABEL, st),
    }
}

// The address of a label operand: 31 where there is no such label.
fn label_address(src: &[u8], rows: &[u32], n: usize, st: Statement) -> Result<u16, Fault>
    requires { Aiming rows.now src.now n st }
    ensures { told result ≡ address_word (symbols n rows.now src.now) src.now st }
{
    match label_row(src, rows, n, st) {
        Some(k) => Ok(cell(rows, k, base_capacities::LABEL_ADDRESS) as u16),
        None => refused(base_refusals::COULD_NOT_FIND_LABEL, st),
    }
}

// The word of an instruction at an address.
pub fn instr_word(
    src: &[u8],
    rows: &[u32],
    n: usize,
    st: Statement,
    address: u32,
) -> Result<u16, Fault>
    requires { Ready rows.now src.now n st × (address < 65535) }
    ensures { (at : ℕ) (s : Stmt) → Faithful src.now at st s → s.op ≡ instr → told result ≡ words_of (symbols n rows.now src.now) address instr s }
{
    if st.reach == parse_field::NO_LABEL {
        return Ok(st.bits as u16);
    }
    word_to_label(src, rows, n, st, address)
}

// The word of a .fill.
pub fn fill_word(src: &[u8], rows: &[u32], n: usize, st: Statement) -> Result<u16, Fault>
    requires { Ready rows.now src.now n st }
    ensures { (at : ℕ) (s : Stmt) → Faithful src.now at st s → (a : ℕ) → told result ≡ words_of (symbols n rows.now src.now) a fill s }
{
    if st.reach == parse_field::NO_LABEL {
        return Ok(st.bits as u16);
    }
    label_address(src, rows, n, st)
}
