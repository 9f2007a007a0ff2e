// The object of a source whose tables pass one has left: pass two, and every table in the one layout.
#![tactic(auto)]

ghost use Rattle.std.specs.Prelude.{◌≡◌, false, ◌*◌, ◌≤◌, length};
ghost use Rattle.rules.specs.Buffers.{six, short, lent_words, lay, reloc_cells};
ghost use Rattle.object_layout_labels.specs.Laying.{LabelRoom, LaidLabels};
ghost use Rattle.pass1_relocations.specs.Pending.{notes};
ghost use Rattle.pass1_relocations.specs.Resolved.{labels_of, Resolved};
ghost use Rattle.asm_first_half.specs.Tabled.{Begun};
ghost use Rattle.asm_second_half.specs.Made.{Roomy, Wrote, Made};

use base_refusals::Refusal;
use pass1_state::Pass1State;
use pass2_statement::Pass2State;

// Labels, names and relocations in the one layout.
fn lay_tables(
    src: &[u8],
    rows: &[u32],
    pending: &[u32],
    o: Pass1State,
    labels: &mut [u32],
    relocations: &mut [u32],
    names: &mut [u8],
)
    requires { Resolved pending.now src.now o.relocations rows.now o.labels × LabelRoom o.labels labels.old names.old × (o.relocations * 2 ≤ length relocations.old) }
    ensures laid_labels { LaidLabels (labels_of o.labels rows.now src.now) labels.old names.old labels.new names.new }
    ensures relocations_after { relocations.new ≡ lay (reloc_cells (labels_of o.labels rows.now src.now) (notes o.relocations pending.now src.now)) (length relocations.old) }
{
    let n = o.labels;
    let m = o.relocations;
    pass1_symbols::lay_symbols(rows, src, n, labels, names);
    pass1_relocations::lay_relocations(pending, src, m, rows, n, relocations);
}

// Pass two into cleared buffers.
fn write_blocks(
    src: &[u8],
    rows: &[u32],
    n: usize,
    blocks: &mut [u16],
    words: &mut [u16],
    marks: &mut [u8],
) -> Result<Pass2State, Refusal>
    requires { Roomy rows.now src.now n blocks.old words.old marks.old }
    ensures { Wrote rows.now src.now n blocks.new words.new marks.new result }
{
    base_buffers::clear(blocks, 0);
    base_buffers::clear(words, 0);
    base_buffers::clear(marks, 0);
    let mut origs = [0u32; base_capacities::ORIG_CELLS];
    pass2::pass_two(src, rows, n, blocks, &mut origs, words, marks)
}

// Pass two, where the lent words hold those of all blocks, and the tables in their layout; after a refusal every buffer is zero.
pub fn write_object(
    src: &[u8],
    rows: &[u32],
    pending: &[u32],
    o: Pass1State,
    blocks: &mut [u16],
    words: &mut [u16],
    marks: &mut [u8],
    labels: &mut [u32],
    relocations: &mut [u32],
    names: &mut [u8],
) -> Result<Pass2State, Refusal>
    requires { Begun rows.now pending.now src.now o × (o.words ≤ lent_words words.old marks.old) × (short (six blocks.old words.old marks.old labels.old relocations.old names.old) ≡ false) }
    ensures { Made rows.now pending.now src.now o (six blocks.old words.old marks.old labels.old relocations.old names.old) result (six blocks.new words.new marks.new labels.new relocations.new names.new) }
{
    let n = o.labels;
    let answer = write_blocks(src, rows, n, blocks, words, marks);
    match answer {
        Ok(_) => {
            lay_tables(src, rows, pending, o, labels, relocations, names);
            answer
        }
        Err(_) => {
            object_layout::clear(blocks, words, marks, labels, relocations, names);
            answer
        }
    }
}
