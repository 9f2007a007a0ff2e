// Two stored objects linked: both are loaded, linked, and the result is stored where the first was.
#![tactic(auto)]

ghost use Rattle.std.specs.Prelude.{◌≡◌, length};
ghost use Rattle.rules.specs.Capacities.{word_room};
ghost use Rattle.rules.specs.Buffers.{six, view};
ghost use Rattle.rules.specs.Stored.{load};
ghost use Rattle.laws_stored.specs.Offsets.{part_at};
ghost use Rattle.object.specs.Meaning.{counts};
ghost use Rattle.view_text.specs.Put.{Put};
ghost use Rattle.lc3_link.specs.Linked.{link_objects, link_second, link_stored, linked_of, Told, Held, blamed_row};

use base_capacities::WORDS;
use base_refusals::OVERLAPPING_LABELS;
use object::Counts;
use object_answer::{Answer, counts_of};
use view_text::put;

// What a link of two objects gives: its number, how many bytes the result has, and how long the name is that stands in the way.
#[derive(Clone, Copy)]
pub struct Linked {
    pub number: u16,
    pub size: usize,
    pub named: usize,
}

fn answer_of(written: Result<usize, u16>, named: usize) -> Linked
    ensures { result ≡ linked_of written named }
{
    match written {
        Ok(size) => Linked {
            number: 0,
            size,
            named,
        },
        Err(number) => Linked {
            number,
            size: 0,
            named,
        },
    }
}

// The name of the first object's label row that stands in the way, at the front of `name`; how long it is there.
fn put_blamed(answer: Answer, labels: &[u32], names: &[u8], name: &mut [u8]) -> usize
    ensures { Put name.old name.new 0 result (blamed_row answer labels.now names.now) }
{
    if answer.number == OVERLAPPING_LABELS {
        let row = answer.start;
        return put(name, 0, object::label_name(labels, names, row));
    }
    0
}

// Two objects that stand in lent buffers.
fn link_objects(
    counts1: Counts,
    blocks1: &[u16],
    words1: &[u16],
    marks1: &[u8],
    labels1: &[u32],
    relocations1: &[u32],
    names1: &[u8],
    counts2: Counts,
    blocks2: &[u16],
    words2: &[u16],
    marks2: &[u8],
    labels2: &[u32],
    relocations2: &[u32],
    names2: &[u8],
    bytes: &mut [u8],
    name: &mut [u8],
) -> Linked
    requires held { Held (counts counts1) (six blocks1.now words1.now marks1.now labels1.now relocations1.now names1.now) }
    requires held_2 { Held (counts counts2) (six blocks2.now words2.now marks2.now labels2.now relocations2.now names2.now) }
    ensures { Told (link_objects (length bytes.old) (view (counts counts1) (six blocks1.now words1.now marks1.now labels1.now relocations1.now names1.now)) (view (counts counts2) (six blocks2.now words2.now marks2.now labels2.now relocations2.now names2.now))) (length bytes.old) name.old result bytes.new name.new }
{
    let mut blocks = [0u16; object::BLOCK_ROOM];
    let mut words = [0u16; WORDS];
    let mut marks = [0u8; WORDS];
    let mut labels = [0u32; object::LABEL_ROOM];
    let mut relocations = [0u32; object::RELOCATION_ROOM];
    let mut names = [0u8; object::NAME_ROOM];
    let answer = link::link(
        counts1,
        blocks1,
        words1,
        marks1,
        labels1,
        relocations1,
        names1,
        counts2,
        blocks2,
        words2,
        marks2,
        labels2,
        relocations2,
        names2,
        &mut blocks,
        &mut words,
        &mut marks,
        &mut labels,
        &mut relocations,
        &mut names,
    );
    let named = put_blamed(answer, labels1, names1, name);
    let written = stored::store_made(
        answer,
        &blocks,
        &words,
        &marks,
        &labels,
        &relocations,
        &names,
        bytes,
    );
    answer_of(written, named)
}

// An object that stands in lent buffers, and one that is stored in bytes.
fn link_second(
    counts1: Counts,
    blocks1: &[u16],
    words1: &[u16],
    marks1: &[u8],
    labels1: &[u32],
    relocations1: &[u32],
    names1: &[u8],
    second: &[u8],
    bytes: &mut [u8],
    name: &mut [u8],
) -> Linked
    requires { Held (counts counts1) (six blocks1.now words1.now marks1.now labels1.now relocations1.now names1.now) }
    ensures { Told (link_second (length bytes.old) (view (counts counts1) (six blocks1.now words1.now marks1.now labels1.now relocations1.now names1.now)) (load word_room second.now)) (length bytes.old) name.old result bytes.new name.new }
{
    let mut blocks = [0u16; object::BLOCK_ROOM];
    let mut words = [0u16; WORDS];
    let mut marks = [0u8; WORDS];
    let mut labels = [0u32; object::LABEL_ROOM];
    let mut relocations = [0u32; object::RELOCATION_ROOM];
    let mut names = [0u8; object::NAME_ROOM];
    let loaded = stored_load::load(
        second,
        &mut blocks,
        &mut words,
        &mut marks,
        &mut labels,
        &mut relocations,
        &mut names,
    );
    if loaded.number == 0 {
        let c = counts_of(loaded);
        return link_objects(
            counts1,
            blocks1,
            words1,
            marks1,
            labels1,
            relocations1,
            names1,
            c,
            &blocks,
            &words,
            &marks,
            &labels,
            &relocations,
            &names,
            bytes,
            name,
        );
    }
    base_buffers::clear(bytes, 0);
    answer_of(Err(loaded.number), 0)
}

// Links the object stored in the first bytes to the one stored in the second; the result is stored where the first was. Where a name stands in the way it is put at the front of `name`.
pub fn link_stored(bytes: &mut [u8], size: usize, second: &[u8], name: &mut [u8]) -> Linked
    ensures { Told (link_stored (length bytes.old) (part_at bytes.old 0 size) second.now) (length bytes.old) name.old result bytes.new name.new }
{
    let mut blocks = [0u16; object::BLOCK_ROOM];
    let mut words = [0u16; WORDS];
    let mut marks = [0u8; WORDS];
    let mut labels = [0u32; object::LABEL_ROOM];
    let mut relocations = [0u32; object::RELOCATION_ROOM];
    let mut names = [0u8; object::NAME_ROOM];
    let answer = stored_load::load(
        stored_read::part_of(bytes, 0, size),
        &mut blocks,
        &mut words,
        &mut marks,
        &mut labels,
        &mut relocations,
        &mut names,
    );
    if answer.number == 0 {
        let c = counts_of(answer);
        return link_second(
            c,
            &blocks,
            &words,
            &marks,
            &labels,
            &relocations,
            &names,
            second,
            bytes,
            name,
        );
    }
    base_buffers::clear(bytes, 0);
    answer_of(Err(answer.number), 0)
}
