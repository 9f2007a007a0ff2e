// The listing of a lent object, as a call: 42, 43, then 51 exactly when the bytes do not fit.
#![tactic(auto)]

ghost use Rattle.std.specs.Prelude.{◌≡◌, length};
ghost use Rattle.rules.specs.Buffers.{six, Valid, view, zeros};
ghost use Rattle.rules.specs.Listing.{listing};
ghost use Rattle.object.specs.Meaning.{counts};
ghost use Rattle.list.specs.Call.{WrittenOf, Called};

use base_refusals::{BAD_OBJECT, NO_WRITE_ROOM, SHORT_BUFFER};
use list_lines::{BLOCK_LINE_BYTES, WORD_LINE_BYTES};
use object::Counts;
use object_check::ObjectErr;

// How long the listing of a valid object is.
fn listing_size(
    c: Counts,
    labels: &[u32],
    relocations: &[u32],
    names: &[u8],
    blocks: &[u16],
    words: &[u16],
    marks: &[u8],
) -> usize
    requires { Valid (counts c) (six blocks.now words.now marks.now labels.now relocations.now names.now) }
    ensures { result ≡ length (listing (view (counts c) (six blocks.now words.now marks.now labels.now relocations.now names.now))) }
{
    let l = c.labels;
    let n = c.relocations;
    let a = list_sections::labels_size(labels, names, l);
    let b = list_sections::relocations_size(relocations, labels, names, n);
    c.blocks * BLOCK_LINE_BYTES + c.words * WORD_LINE_BYTES + a + b
}

// The listing of a valid object, into a buffer of zeros.
fn list_object(
    c: Counts,
    blocks: &[u16],
    words: &[u16],
    marks: &[u8],
    labels: &[u32],
    relocations: &[u32],
    names: &[u8],
    out: &mut [u8],
) -> Result<usize, u16>
    requires valid { Valid (counts c) (six blocks.now words.now marks.now labels.now relocations.now names.now) }
    requires out_value { out.old ≡ zeros (length out.old) }
    ensures { WrittenOf (view (counts c) (six blocks.now words.now marks.now labels.now relocations.now names.now)) (length out.old) result out.new }
{
    let size = listing_size(c, labels, relocations, names, blocks, words, marks);
    if out.len() < size {
        return Err(NO_WRITE_ROOM);
    }
    let b = c.blocks;
    let w = c.words;
    let l = c.labels;
    let n = c.relocations;
    let first = list_sections::put_blocks(out, 0, blocks, b, words, marks, w);
    let second = list_sections::put_labels(out, first, labels, names, l);
    let end = list_sections::put_relocations(out, second, relocations, labels, names, n);
    Ok(end)
}

// The listing of a lent object.
pub fn list(
    c: Counts,
    blocks: &[u16],
    words: &[u16],
    marks: &[u8],
    labels: &[u32],
    relocations: &[u32],
    names: &[u8],
    out: &mut [u8],
) -> Result<usize, u16>
    ensures { Called (counts c) (six blocks.now words.now marks.now labels.now relocations.now names.now) (length out.old) result out.new }
{
    base_buffers::clear(out, 0);
    match object_check::check_object(c, blocks, words, marks, labels, relocations, names) {
        Ok(()) => list_object(c, blocks, words, marks, labels, relocations, names, out),
        Err(ObjectErr::ShortBuffer) => Err(SHORT_BUFFER),
        Err(ObjectErr::BadObject) => Err(BAD_OBJECT),
    }
}
