// Whether lent buffers are an object: refusals 42 and 43.
#![tactic(auto)]

ghost use Rattle.rules.specs.Base.{ok};
ghost use Rattle.rules.specs.Buffers.{six, Valid};
ghost use Rattle.object.specs.Decides.{Decides};
ghost use Rattle.rules.specs.Calls.{OfObject};
ghost use Rattle.object.specs.Meaning.{counts};
ghost use Rattle.object_check.specs.Checked.{outcome};

use object::Counts;

// Why lent buffers are no object: one is too short (42), or what they hold is none (43).
#[derive(Clone, Copy)]
pub enum ObjectErr {
    ShortBuffer,
    BadObject,
}

// The buffers keep all that 43 demands.
pub fn is_object(
    c: Counts,
    blocks: &[u16],
    words: &[u16],
    marks: &[u8],
    labels: &[u32],
    relocations: &[u32],
    names: &[u8],
) -> bool
    ensures { Decides (Valid (counts c) (six blocks.now words.now marks.now labels.now relocations.now names.now)) result }
{
    let nb = c.blocks;
    let w = c.words;
    let m = c.labels;
    let n = c.relocations;
    let good_blocks = object_check_blocks::check_blocks(blocks, nb, w);
    let good_words = object_check_blocks::check_words(words, marks, w);
    let good_labels = object_check_labels::check_labels(labels, names, m);
    if good_blocks {
        if good_words {
            if good_labels {
                object_check_relocations::check_relocations(
                    blocks,
                    nb,
                    words,
                    marks,
                    w,
                    labels,
                    m,
                    relocations,
                    n,
                )
            } else {
                false
            }
        } else {
            false
        }
    } else {
        false
    }
}

// The check of a lent object: first 42, then 43.
pub fn check_object(
    c: Counts,
    blocks: &[u16],
    words: &[u16],
    marks: &[u8],
    labels: &[u32],
    relocations: &[u32],
    names: &[u8],
) -> Result<(), ObjectErr>
    ensures { OfObject (counts c) (six blocks.now words.now marks.now labels.now relocations.now names.now) (ok tt) (outcome result) }
{
    let short = object::is_short(blocks, words, marks, labels, relocations, names);
    if short {
        return Err(ObjectErr::ShortBuffer);
    }
    let good = is_object(c, blocks, words, marks, labels, relocations, names);
    if good {
        return Ok(());
    }
    Err(ObjectErr::BadObject)
}
