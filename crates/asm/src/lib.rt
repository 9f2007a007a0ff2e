// Assembling: any source to an object in lent buffers, or one refusal and every buffer zero.
#![tactic(auto)]

ghost use Rattle.std.specs.Prelude.{◌≡◌, false, List, ◌≤◌};
ghost use Rattle.rules.specs.Base.{ok};
ghost use Rattle.rules.specs.Statements.{Stmt, statements};
ghost use Rattle.rules.specs.Buffers.{six, short, lent_words};
ghost use Rattle.object_answer.specs.Meant.{Leaves};
ghost use Rattle.pass1_fill.specs.Tables.{seen};
ghost use Rattle.asm_first_half.specs.Tabled.{Begun};
ghost use Rattle.asm_second_half.specs.Made.{after_pass2};
ghost use Rattle.asm.specs.Call.{Assembled, accepting};

use object_answer::{Answer, refusal};
use pass1_state::Pass1State;
use pass2_statement::Pass2State;

// An object with these tables and blocks.
fn accepted(o: Pass1State, t: Pass2State) -> Answer
    ensures { result ≡ accepting o t }
{
    Answer {
        number: 0,
        start: 0,
        end: 0,
        start2: 0,
        end2: 0,
        blocks: t.blocks,
        words: t.used,
        labels: o.labels,
        relocations: o.relocations,
    }
}

// Pass two, where the lent words hold those of all blocks: the object in its layout, or a refusal and every buffer zero.
fn second_half(
    src: &[u8],
    rows: &[u32],
    pending: &[u32],
    o: Pass1State,
    blocks: &mut [u16],
    words: &mut [u16],
    marks: &mut [u8],
    labels: &mut [u32],
    relocations: &mut [u32],
    names: &mut [u8],
) -> Answer
    requires { Begun rows.now pending.now src.now o × (o.words ≤ lent_words words.old marks.old) × (short (six blocks.old words.old marks.old labels.old relocations.old names.old) ≡ false) }
    ensures { (ss : List Stmt) → statements src.now ≡ ok ss → Leaves (after_pass2 ss (seen rows.now pending.now src.now o)) (six blocks.old words.old marks.old labels.old relocations.old names.old) result (six blocks.new words.new marks.new labels.new relocations.new names.new) }
{
    let answer = asm_second_half::write_object(
        src,
        rows,
        pending,
        o,
        blocks,
        words,
        marks,
        labels,
        relocations,
        names,
    );
    match answer {
        Ok(t) => accepted(o, t),
        Err(r) => refusal(r.number, r.start, r.end, r.start2, r.end2),
    }
}

// Any source to an object in lent buffers: 42, 11, 12, the lexer's refusals, those of statements, pass one, 41, pass two.
// An accepted source is walked twice, once a pass: pass one reads every statement, so that its going to the end leaves only 12 of what goes before it.
// The tables of pass one grow in arrays of their own: that of symbols with its keys in 24,576 bytes, that of relocations in 16,384.
pub fn assemble(
    src: &[u8],
    blocks: &mut [u16],
    words: &mut [u16],
    marks: &mut [u8],
    labels: &mut [u32],
    relocations: &mut [u32],
    names: &mut [u8],
) -> Answer
    ensures { Assembled (six blocks.old words.old marks.old labels.old relocations.old names.old) src.now result (six blocks.new words.new marks.new labels.new relocations.new names.new) }
{
    let small = object::is_short(blocks, words, marks, labels, relocations, names);
    let room = object::lent_words(words, marks);
    let mut rows = [0u32; pass1_symbols::SYMBOL_CELLS];
    let mut pending = [0u32; base_capacities::PASS1_CELLS];
    match asm_first_half::first_half(src, small, room, &mut rows, &mut pending) {
        Ok(o) => second_half(
            src,
            &rows,
            &pending,
            o,
            blocks,
            words,
            marks,
            labels,
            relocations,
            names,
        ),
        Err(r) => {
            object_layout::clear(blocks, words, marks, labels, relocations, names);
            refusal(r.number, r.start, r.end, r.start2, r.end2)
        }
    }
}
