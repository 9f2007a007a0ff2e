// A lent object into lent bytes, in its stored form, as a call: 42, 43, then 51 exactly when the bytes do not fit.
#![tactic(auto)]

ghost use Rattle.std.specs.Prelude.{◌≡◌, length};
ghost use Rattle.rules.specs.Buffers.{six, Valid, view, zeros};
ghost use Rattle.rules.specs.Stored.{stored};
ghost use Rattle.object.specs.Meaning.{counts};
ghost use Rattle.stored.specs.Call.{WrittenOf, Called, MadeStored};

use base_capacities::{BLOCKS, LABELS, NAME_BYTES, RELOCATIONS, WORDS};
use base_refusals::{BAD_OBJECT, NO_WRITE_ROOM, SHORT_BUFFER};
use object::Counts;
use object_answer::Answer;
use object_check::ObjectErr;
use stored_fields::{BLOCK_BYTES, HEAD_BYTES, NUMBER_BYTES};

// The most bytes that a stored object takes: every word a run by itself, full tables, every name of 64 bytes. A relocation names an external, which has no address. Proved of the rule: `no-object-takes-more` on the page of promises.
pub const STORED_BYTES: usize = BLOCKS * BLOCK_BYTES
    + WORDS * (HEAD_BYTES + NUMBER_BYTES)
    + (LABELS + RELOCATIONS) * (HEAD_BYTES + NUMBER_BYTES + NAME_BYTES)
    - NUMBER_BYTES
    + HEAD_BYTES;

// How many bytes a valid object has when it is stored.
fn stored_size(
    c: Counts,
    blocks: &[u16],
    words: &[u16],
    marks: &[u8],
    labels: &[u32],
    relocations: &[u32],
    names: &[u8],
) -> usize
    requires { Valid (counts c) (six blocks.now words.now marks.now labels.now relocations.now names.now) }
    ensures { result ≡ length (stored (view (counts c) (six blocks.now words.now marks.now labels.now relocations.now names.now))) }
{
    let b = c.blocks;
    let w = c.words;
    let l = c.labels;
    let n = c.relocations;
    let first = stored_write_blocks::blocks_size(blocks, b, marks, w);
    let second = stored_write_labels::labels_size(labels, names, l);
    let third = stored_write_labels::relocations_size(relocations, labels, names, n);
    first + second + third + HEAD_BYTES
}

// A valid object into a buffer of zeros. Its size is counted first: a refusal leaves nothing to undo, and no write needs a test.
fn store_object(
    c: Counts,
    blocks: &[u16],
    words: &[u16],
    marks: &[u8],
    labels: &[u32],
    relocations: &[u32],
    names: &[u8],
    bytes: &mut [u8],
) -> Result<usize, u16>
    requires valid { Valid (counts c) (six blocks.now words.now marks.now labels.now relocations.now names.now) }
    requires bytes_value { bytes.old ≡ zeros (length bytes.old) }
    ensures { WrittenOf (view (counts c) (six blocks.now words.now marks.now labels.now relocations.now names.now)) (length bytes.old) result bytes.new }
{
    let size = stored_size(c, blocks, words, marks, labels, relocations, names);
    if bytes.len() < size {
        return Err(NO_WRITE_ROOM);
    }
    let b = c.blocks;
    let w = c.words;
    let l = c.labels;
    let n = c.relocations;
    let first = stored_write_blocks::put_blocks(bytes, 0, blocks, b, words, marks, w);
    let second = stored_write_labels::put_labels(bytes, first, labels, names, l);
    let third = stored_write_labels::put_relocations(bytes, second, relocations, labels, names, n);
    let end = stored_fields::put_end(bytes, third);
    Ok(end)
}

// A lent object into lent bytes.
pub fn store(
    c: Counts,
    blocks: &[u16],
    words: &[u16],
    marks: &[u8],
    labels: &[u32],
    relocations: &[u32],
    names: &[u8],
    bytes: &mut [u8],
) -> Result<usize, u16>
    ensures { Called (counts c) (six blocks.now words.now marks.now labels.now relocations.now names.now) (length bytes.old) result bytes.new }
{
    base_buffers::clear(bytes, 0);
    match object_check::check_object(c, blocks, words, marks, labels, relocations, names) {
        Ok(()) => store_object(c, blocks, words, marks, labels, relocations, names, bytes),
        Err(ObjectErr::ShortBuffer) => Err(SHORT_BUFFER),
        Err(ObjectErr::BadObject) => Err(BAD_OBJECT),
    }
}

// What a call has made in these buffers into lent bytes; where it has refused, its number, and the bytes are zero.
pub fn store_made(
    answer: Answer,
    blocks: &[u16],
    words: &[u16],
    marks: &[u8],
    labels: &[u32],
    relocations: &[u32],
    names: &[u8],
    bytes: &mut [u8],
) -> Result<usize, u16>
    ensures { MadeStored answer (six blocks.now words.now marks.now labels.now relocations.now names.now) (length bytes.old) result bytes.new }
{
    if answer.number == 0 {
        let c = object_answer::counts_of(answer);
        return store(c, blocks, words, marks, labels, relocations, names, bytes);
    }
    base_buffers::clear(bytes, 0);
    Err(answer.number)
}
