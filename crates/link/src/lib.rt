// Linking: two lent objects into a third, or one refusal and every buffer zero.
#![tactic(auto)]

ghost use Rattle.rules.specs.Buffers.{six};
ghost use Rattle.object.specs.Meaning.{counts};
ghost use Rattle.link.specs.Call.{Linked};

use object::Counts;
use object_answer::Answer;

// Two lent objects into a third: 42 for any table of the three, 43 for either object, 28, 25 with its row in the first, 40 and 41 counted on the result.
// All refusals are known before anything is written. The notes of each label row, 8,192 bytes to an object, spare each relocation its search.
pub fn link(
    first: Counts,
    blocks1: &[u16],
    words1: &[u16],
    marks1: &[u8],
    labels1: &[u32],
    relocations1: &[u32],
    names1: &[u8],
    second: Counts,
    blocks2: &[u16],
    words2: &[u16],
    marks2: &[u8],
    labels2: &[u32],
    relocations2: &[u32],
    names2: &[u8],
    blocks: &mut [u16],
    words: &mut [u16],
    marks: &mut [u8],
    labels: &mut [u32],
    relocations: &mut [u32],
    names: &mut [u8],
) -> Answer
    ensures { Linked (counts first) (six blocks1.now words1.now marks1.now labels1.now relocations1.now names1.now) (counts second) (six blocks2.now words2.now marks2.now labels2.now relocations2.now names2.now) (six blocks.old words.old marks.old labels.old relocations.old names.old) result (six blocks.new words.new marks.new labels.new relocations.new names.new) }
{
    let small = object::is_short(blocks, words, marks, labels, relocations, names);
    let room = object::lent_words(words, marks);
    let mut notes1 = [0u32; link_notes::NOTES];
    let mut notes2 = [0u32; link_notes::NOTES];
    let decision = link_decide::decide(
        first,
        blocks1,
        words1,
        marks1,
        labels1,
        relocations1,
        names1,
        second,
        blocks2,
        words2,
        marks2,
        labels2,
        relocations2,
        names2,
        small,
        room,
        &mut notes1,
        &mut notes2,
    );
    match decision {
        Err(fault) => {
            object_layout::clear(blocks, words, marks, labels, relocations, names);
            object_answer::refusal(fault.number, fault.start, fault.end, 0, 0)
        }
        Ok(c) => {
            link_blocks::merge_blocks(
                first, blocks1, words1, marks1, second, blocks2, words2, marks2, blocks, words,
                marks,
            );
            link_words::settle_words(
                relocations1,
                first.relocations,
                &notes1,
                blocks,
                c.blocks,
                words,
            );
            link_words::settle_words(
                relocations2,
                second.relocations,
                &notes2,
                blocks,
                c.blocks,
                words,
            );
            link_labels::lay_labels(
                labels1,
                names1,
                first.labels,
                &notes1,
                labels2,
                names2,
                second.labels,
                &notes2,
                labels,
                names,
            );
            link_relocations::merge_relocations(
                relocations1,
                first.relocations,
                &notes1,
                relocations2,
                second.relocations,
                &notes2,
                relocations,
            );
            object_answer::acceptance(c)
        }
    }
}
