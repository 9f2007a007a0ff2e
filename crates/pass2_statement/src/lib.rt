// A statement in pass two: its words behind those of the open block, an .orig, or an .end.
#![tactic(auto)]

ghost use Rattle.std.specs.Prelude.{◌≡◌, List, [], ◌∷◌, ℕ, ◌+◌, ◌<◌, Err};
ghost use Rattle.rules.specs.Objects.{word};
ghost use Rattle.rules.specs.Statements.{Stmt};
ghost use Rattle.rules.specs.Passes.{emit, finish, written};
ghost use Rattle.base_refusals.specs.Refusals.{refusal_at};
ghost use Rattle.pass1_symbols.specs.Symbols.{symbols};
ghost use Rattle.parse_meaning.specs.Reading.{Faithful};
ghost use Rattle.pass2_words.specs.Writing.{Room, Wrote};
ghost use Rattle.pass2_statement.specs.State.{view_pass2, Standing, Stepping, Emits, Begins, Ends, Writes, with_used, one_word, known, opening, closing, step_of, close_of};

use base_refusals::{Fault, Refusal};
use parse::Statement;
use parse_rows::Op;

// The open block's start and .orig, where a block is open; how many blocks are closed, with how many words; and how many words are in use, those of the open block with them.
#[derive(Clone, Copy)]
pub struct Pass2State {
    pub inside: bool,
    pub start: u16,
    pub orig_start: u32,
    pub orig_end: u32,
    pub blocks: usize,
    pub base: usize,
    pub used: usize,
}

// The state with so many words in use.
fn with_used(t: Pass2State, used: usize) -> Pass2State
    ensures { result ≡ with_used t used }
{
    Pass2State { used, ..t }
}

// The state with a block that begins at an address.
fn begin(t: Pass2State, start: u16, orig_start: u32, orig_end: u32) -> Pass2State
    ensures { result ≡ opening t start orig_start orig_end }
{
    Pass2State {
        inside: true,
        start,
        orig_start,
        orig_end,
        ..t
    }
}

// The state with no open block.
fn shut(t: Pass2State, blocks: usize) -> Pass2State
    ensures { result ≡ closing t blocks }
{
    Pass2State {
        inside: false,
        blocks,
        base: t.used,
        ..t
    }
}

// A refusal at one place.
pub fn refused(number: u16, start: usize, end: usize) -> Result<Pass2State, Refusal>
    ensures { result ≡ Err (refusal_at number start end) }
{
    Err(Refusal {
        number,
        start,
        end,
        start2: 0,
        end2: 0,
    })
}

// What writing words answers, as a step from a state.
fn step_of(t: Pass2State, answer: Result<usize, Fault>) -> Result<Pass2State, Refusal>
    ensures { result ≡ step_of t answer }
{
    match answer {
        Ok(used) => Ok(with_used(t, used)),
        Err(fault) => Err(fault.into()),
    }
}

// The words of a statement behind those of the open block; 21 where none is open.
fn emit_words(
    src: &[u8],
    rows: &[u32],
    n: usize,
    words: &mut [u16],
    marks: &mut [u8],
    st: Statement,
    t: Pass2State,
) -> Result<Pass2State, Refusal>
    requires { Emits rows.now src.now n words.old marks.old st t }
    ensures { (bs os : List ℕ) (at : ℕ) (s : Stmt) → Standing bs os words.old marks.old t → Faithful src.now at st s → Stepping bs os words.new marks.new (emit (symbols n rows.now src.now) s (view_pass2 bs os words.old marks.old t)) result }
{
    if t.inside {
        let size = (t.used - t.base) as u32;
        let address = u32::from(t.start) + size;
        let used = t.used;
        let answer = pass2_words::write_words(src, rows, n, words, marks, st, used, address);
        return step_of(t, answer);
    }
    refused(base_refusals::UNDET_ADDR_STMT, st.start, st.end)
}

// An instruction or a .fill.
fn is_one_word(op: Op) -> bool
    ensures { result ≡ one_word op }
{
    matches!(op, Op::Instr | Op::Fill)
}

// An instruction or a .fill without a label operand, where a block is open: its word is known, and nothing is refused.
pub fn is_known(st: Statement, t: Pass2State) -> bool
    ensures { result ≡ known st t }
{
    let one = is_one_word(st.op);
    one & (st.reach == parse_field::NO_LABEL) & t.inside
}

// The known word of a statement behind those of the open block.
pub fn put_known(words: &mut [u16], marks: &mut [u8], st: Statement, t: Pass2State) -> Pass2State
    requires room { Room words.old marks.old t.used 1 }
    requires bits_bound { st.bits < 65536 }
    ensures { Wrote words.old marks.old words.new marks.new t.used (word st.bits ∷ []) × (result ≡ with_used t (t.used + 1)) }
{
    pass2_words::push(words, marks, t.used, st.bits as u16);
    with_used(t, t.used + 1)
}

// .orig: a block begins where none is open.
fn begin_block(st: Statement, t: Pass2State) -> Pass2State
    requires { Begins st t }
    ensures { result ≡ opening t st.bits st.start st.end }
{
    begin(t, st.bits as u16, st.start as u32, st.end as u32)
}

// What placing the open block answers, as a step from a state.
fn close_of(t: Pass2State, answer: Result<(), Refusal>) -> Result<Pass2State, Refusal>
    requires { t.blocks < 64 }
    ensures { result ≡ close_of t answer }
{
    match answer {
        Ok(()) => Ok(shut(t, t.blocks + 1)),
        Err(refusal) => Err(refusal),
    }
}

// .end: the open block is placed among those closed; 28 where it overlaps one, and nothing where it has no words.
fn finish_block(
    blocks: &mut [u16],
    origs: &mut [u32],
    words: &mut [u16],
    marks: &mut [u8],
    t: Pass2State,
) -> Result<Pass2State, Refusal>
    requires { Ends blocks.old origs.old words.old marks.old t }
    ensures { Stepping blocks.new origs.new words.new marks.new (finish (view_pass2 blocks.old origs.old words.old marks.old t)) result }
{
    if t.inside {
        let n = t.blocks;
        let size = t.used - t.base;
        if size == 0 {
            return Ok(shut(t, n));
        }
        let length = size as u16;
        let used = t.used;
        let start = t.start;
        let from = t.orig_start;
        let to = t.orig_end;
        let answer = pass2_blocks::place_block(
            blocks, origs, words, marks, n, used, start, length, from, to,
        );
        return close_of(t, answer);
    }
    Ok(t)
}

// A statement of any kind.
pub fn write_statement(
    src: &[u8],
    rows: &[u32],
    n: usize,
    blocks: &mut [u16],
    origs: &mut [u32],
    words: &mut [u16],
    marks: &mut [u8],
    st: Statement,
    t: Pass2State,
) -> Result<Pass2State, Refusal>
    requires { Writes rows.now src.now n blocks.old origs.old words.old marks.old st t }
    ensures { (at : ℕ) (s : Stmt) → Faithful src.now at st s → Stepping blocks.new origs.new words.new marks.new (written (symbols n rows.now src.now) s.op s (view_pass2 blocks.old origs.old words.old marks.old t)) result }
{
    match st.op {
        Op::Instr => emit_words(src, rows, n, words, marks, st, t),
        Op::Fill => emit_words(src, rows, n, words, marks, st, t),
        Op::Blkw => emit_words(src, rows, n, words, marks, st, t),
        Op::Stringz => emit_words(src, rows, n, words, marks, st, t),
        Op::Orig => Ok(begin_block(st, t)),
        Op::End => finish_block(blocks, origs, words, marks, t),
        Op::External => Ok(t),
    }
}
