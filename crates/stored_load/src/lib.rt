// Loading: any bytes to an object in six lent buffers, or one refusal and every buffer zero.
#![tactic(auto)]

ghost use Rattle.std.specs.Prelude.{◌≡◌, false};
ghost use Rattle.rules.specs.Buffers.{six, short};
ghost use Rattle.stored_load.specs.Filling.{Fitting, PutFitting, Fillable, Lent, Came, Refuses, Settles};
ghost use Rattle.stored_load.specs.Call.{Loaded};

use base_refusals::{BAD_FIELD, NO_ROOM, SHORT_BUFFER};
use object::Counts;
use object_answer::{Answer, refusal};
use stored_put::put_field;
use stored_walk::{Walk, Walked};

// A field is put where the words up to behind it fit.
fn put_fitting(
    bytes: &[u8],
    w: Walk,
    next: Walk,
    room: usize,
    blocks: &mut [u16],
    words: &mut [u16],
    marks: &mut [u8],
    labels: &mut [u32],
    relocations: &mut [u32],
    names: &mut [u8],
)
    requires { Fitting bytes.now w next room (six blocks.old words.old marks.old labels.old relocations.old names.old) }
    ensures { PutFitting bytes.now w next room (six blocks.old words.old marks.old labels.old relocations.old names.old) (six blocks.new words.new marks.new labels.new relocations.new names.new) }
{
    if next.words <= room {
        put_field(
            bytes,
            w,
            next,
            blocks,
            words,
            marks,
            labels,
            relocations,
            names,
        );
    }
}

// The fields of bytes into cleared buffers: the counts of an object, which stands in the buffers if its words fit, or the offset of 50. Where words do not fit they are not put, and the fields are looked at to the end: 50 goes before 41.
fn fill(
    bytes: &[u8],
    places: &mut [usize],
    room: usize,
    blocks: &mut [u16],
    words: &mut [u16],
    marks: &mut [u8],
    labels: &mut [u32],
    relocations: &mut [u32],
    names: &mut [u8],
) -> Result<Counts, usize>
    requires { Fillable places.old room (six blocks.old words.old marks.old labels.old relocations.old names.old) }
    ensures { Came bytes.now room (six blocks.old words.old marks.old labels.old relocations.old names.old) (six blocks.new words.new marks.new labels.new relocations.new names.new) result }
{
    let mut w = stored_walk::begin();
    // A loop: each turn passes fields, and the bytes say where they end.
    loop {
        match stored_walk::step(bytes, places, w) {
            Walked::On(next) => {
                put_fitting(
                    bytes,
                    w,
                    next,
                    room,
                    blocks,
                    words,
                    marks,
                    labels,
                    relocations,
                    names,
                );
                w = stored_put_labels::put_run(bytes, places, next, room, labels, names);
            }
            Walked::Ended(c) => {
                return Ok(c);
            }
            Walked::Broken(at) => {
                return Err(at);
            }
        }
    }
}

// The fields of any bytes into buffers that are long enough, whatever stood there. The places of labels, 8,192 bytes, are what a relocation's name is looked for by.
fn read_fields(
    bytes: &[u8],
    room: usize,
    blocks: &mut [u16],
    words: &mut [u16],
    marks: &mut [u8],
    labels: &mut [u32],
    relocations: &mut [u32],
    names: &mut [u8],
) -> Result<Counts, usize>
    requires { Lent room (six blocks.old words.old marks.old labels.old relocations.old names.old) }
    ensures { Came bytes.now room (six blocks.old words.old marks.old labels.old relocations.old names.old) (six blocks.new words.new marks.new labels.new relocations.new names.new) result }
{
    object_layout::clear(blocks, words, marks, labels, relocations, names);
    let mut places = [0usize; base_capacities::LABELS];
    fill(
        bytes,
        &mut places,
        room,
        blocks,
        words,
        marks,
        labels,
        relocations,
        names,
    )
}

// A refusal at an offset, and every buffer zero.
fn refuse(
    number: u16,
    at: usize,
    blocks: &mut [u16],
    words: &mut [u16],
    marks: &mut [u8],
    labels: &mut [u32],
    relocations: &mut [u32],
    names: &mut [u8],
) -> Answer
    ensures { Refuses number at (six blocks.old words.old marks.old labels.old relocations.old names.old) result (six blocks.new words.new marks.new labels.new relocations.new names.new) }
{
    object_layout::clear(blocks, words, marks, labels, relocations, names);
    refusal(number, at, at, 0, 0)
}

// What is answered of the fields: 50, then 41.
fn settle(
    filled: Result<Counts, usize>,
    room: usize,
    blocks: &mut [u16],
    words: &mut [u16],
    marks: &mut [u8],
    labels: &mut [u32],
    relocations: &mut [u32],
    names: &mut [u8],
) -> Answer
    ensures { Settles filled room (six blocks.old words.old marks.old labels.old relocations.old names.old) result (six blocks.new words.new marks.new labels.new relocations.new names.new) }
{
    match filled {
        Ok(c) => {
            if c.words <= room {
                return object_answer::acceptance(c);
            }
            refuse(NO_ROOM, 0, blocks, words, marks, labels, relocations, names)
        }
        Err(at) => refuse(
            BAD_FIELD,
            at,
            blocks,
            words,
            marks,
            labels,
            relocations,
            names,
        ),
    }
}

// Where the buffers are long enough.
fn load_fields(
    bytes: &[u8],
    blocks: &mut [u16],
    words: &mut [u16],
    marks: &mut [u8],
    labels: &mut [u32],
    relocations: &mut [u32],
    names: &mut [u8],
) -> Answer
    requires { short (six blocks.old words.old marks.old labels.old relocations.old names.old) ≡ false }
    ensures { Loaded (six blocks.old words.old marks.old labels.old relocations.old names.old) bytes.now result (six blocks.new words.new marks.new labels.new relocations.new names.new) }
{
    let room = object::lent_words(words, marks);
    let filled = read_fields(
        bytes,
        room,
        blocks,
        words,
        marks,
        labels,
        relocations,
        names,
    );
    settle(
        filled,
        room,
        blocks,
        words,
        marks,
        labels,
        relocations,
        names,
    )
}

// Any bytes to an object in lent buffers: 42, 50 at the field that breaks the form, 41.
pub fn load(
    bytes: &[u8],
    blocks: &mut [u16],
    words: &mut [u16],
    marks: &mut [u8],
    labels: &mut [u32],
    relocations: &mut [u32],
    names: &mut [u8],
) -> Answer
    ensures { Loaded (six blocks.old words.old marks.old labels.old relocations.old names.old) bytes.now result (six blocks.new words.new marks.new labels.new relocations.new names.new) }
{
    if object::is_short(blocks, words, marks, labels, relocations, names) {
        return refuse(
            SHORT_BUFFER,
            0,
            blocks,
            words,
            marks,
            labels,
            relocations,
            names,
        );
    }
    load_fields(bytes, blocks, words, marks, labels, relocations, names)
}
