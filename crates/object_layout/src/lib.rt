// Six lent buffers cleared: what every call that makes an object leaves after a refusal.
#![tactic(auto)]

ghost use Rattle.std.specs.Prelude.{◌≡◌};
ghost use Rattle.rules.specs.Objects.{nothing};
ghost use Rattle.rules.specs.Buffers.{six, layout};

// All zero, which is what a refusal leaves.
pub fn clear(
    blocks: &mut [u16],
    words: &mut [u16],
    marks: &mut [u8],
    labels: &mut [u32],
    relocations: &mut [u32],
    names: &mut [u8],
)
    ensures { six blocks.new words.new marks.new labels.new relocations.new names.new ≡ layout nothing (six blocks.old words.old marks.old labels.old relocations.old names.old) }
{
    base_buffers::clear(blocks, 0);
    base_buffers::clear(words, 0);
    base_buffers::clear(marks, 0);
    base_buffers::clear(labels, 0);
    base_buffers::clear(relocations, 0);
    base_buffers::clear(names, 0);
}
