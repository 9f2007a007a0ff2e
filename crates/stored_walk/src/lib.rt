// The walk over stored bytes, one field at a time: whether a field may follow what was read, and how things stand behind it. Checking and loading share it.
#![tactic(auto)]

ghost use Rattle.std.specs.Prelude.{◌≡◌, true, List, ℕ, ◌+◌, ◌≤◌, ◌<◌, length};
ghost use Rattle.rules.specs.Stored.{State};
ghost use Rattle.stored_read.proofs.Found.{Stands};
ghost use Rattle.stored_seek.specs.Seeking.{Listed};
ghost use Rattle.stored_walk.specs.Walking.{begun, Tells, Going, Steps, Stepped, Moves};
ghost use Rattle.stored_walk.specs.Behind.{behind_block, block_fits, set_kind, kind_left, behind_run, set_fits, unset_fits, behind_label, label_fits, name_fits, NamedAt, behind_reloc, reloc_fits, RelocAt};

use base_capacities::{BLOCKS, LABELS, RELOCATIONS, WORDS};
use object::Counts;
use std::cmp::Ordering;
use stored_fields::{
    BLOCK, DEFINED_LABEL, END, EXTERNAL_LABEL, NUMBER_BYTES, RELOCATION, RUN_WORDS, SET_WORDS,
    UNSET_WORDS,
};
use stored_read::{Field, number_at};

// What is known of the fields up to `at`: what run came last; words read, and those that the open block is owed; blocks, the open one among them, and
// where the last ends; labels, name bytes and relocations read; the least address that the next relocation may have and the label row of the last;
// and for the next one's word, from which field on it is to be looked for and at which address words begin there. What a field changes stands together,
// and every number has the same width, so that a walk is copied without gaps.
#[derive(Clone, Copy)]
pub struct Walk {
    pub at: usize,
    pub previous: usize,
    pub words: usize,
    pub owed: usize,
    pub blocks: usize,
    pub floor: usize,
    pub labels: usize,
    pub named: usize,
    pub relocations: usize,
    pub least: usize,
    pub row: usize,
    pub seen: usize,
    pub address: usize,
}

// What run came last: none or a full one of set words, so that any may follow; a shorter one of set words; one of unset words.
const FREE: usize = 0;

const SHORT: usize = 1;

const SKIPPED: usize = 2;

// How things stand behind a field that may follow; the counts of the object where x00 ends the bytes; or the offset of 50.
#[derive(Clone, Copy)]
pub enum Walked {
    On(Walk),
    Ended(Counts),
    Broken(usize),
}

// Before the first field.
pub fn begin() -> Walk
    ensures { result ≡ begun }
{
    Walk {
        at: 0,
        blocks: 0,
        words: 0,
        floor: 0,
        owed: 0,
        previous: FREE,
        labels: 0,
        named: 0,
        relocations: 0,
        least: 0,
        row: 0,
        seen: 0,
        address: 0,
    }
}

// Behind the field of a block that ends before `floor`.
fn opened(w: Walk, at: usize, floor: usize, count: usize) -> Walk
    requires { w.blocks < 64 }
    ensures { result ≡ behind_block w at floor count }
{
    Walk {
        at,
        blocks: w.blocks + 1,
        floor,
        owed: count,
        previous: FREE,
        ..w
    }
}

// A block of so many words from an address on may follow.
fn block_fits(w: Walk, first: usize, count: usize) -> bool
    requires { (first < 65536) × (count < 65536) }
    ensures { result ≡ block_fits w first count }
{
    let closed = (w.owed == 0) & (w.labels == 0) & (w.relocations == 0);
    let placed = (0 < count) & (w.floor <= first) & (first + count <= WORDS);
    closed & placed & (w.blocks < BLOCKS)
}

// x01: a start and a word count.
fn step_block(bytes: &[u8], w: Walk, start: usize, end: usize) -> Walked
    requires { Stands bytes.now w.at 1 start end }
    ensures { Stepped bytes.now w result }
{
    if end - start == 2 * NUMBER_BYTES {
        let first = usize::from(number_at(bytes, start));
        let count = usize::from(number_at(bytes, start + NUMBER_BYTES));
        if block_fits(w, first, count) {
            return Walked::On(opened(w, end, first + count, count));
        }
        return Walked::Broken(w.at);
    }
    Walked::Broken(w.at)
}

// What may follow a run of so many set words.
fn set_kind(size: usize) -> usize
    ensures { result ≡ set_kind size }
{
    if size == RUN_WORDS {
        return FREE;
    }
    SHORT
}

// What may follow the last run of a block: at its end another block, so any run.
fn kind_left(owed: usize, kind: usize) -> usize
    ensures { result ≡ kind_left owed kind }
{
    if owed == 0 {
        return FREE;
    }
    kind
}

// Behind a run of so many words.
fn grown(w: Walk, at: usize, size: usize, kind: usize) -> Walk
    requires size_le_owed { size ≤ w.owed }
    requires owed_bound { w.words + w.owed ≤ 65024 }
    ensures { result ≡ behind_run w at size kind }
{
    let owed = w.owed - size;
    Walk {
        at,
        words: w.words + size,
        owed,
        previous: kind_left(owed, kind),
        ..w
    }
}

// A run of so many set words may follow.
fn set_fits(w: Walk, size: usize) -> bool
    ensures { result ≡ set_fits w size }
{
    (0 < size) & (size <= RUN_WORDS) & (size <= w.owed) & !(w.previous == SHORT)
}

// A run of so many unset words may follow.
fn unset_fits(w: Walk, size: usize) -> bool
    ensures { result ≡ unset_fits w size }
{
    (0 < size) & (size <= w.owed) & !(w.previous == SKIPPED)
}

// x02: words. They are not looked at.
fn step_set(w: Walk, start: usize, end: usize) -> Walked
    requires start_le_end { start ≤ end }
    requires owed_bound { w.words + w.owed ≤ 65024 }
    ensures { (b : List ℕ) → Stands b w.at 2 start end → Stepped b w result }
{
    let length = end - start;
    let size = length / NUMBER_BYTES;
    if length % NUMBER_BYTES == 0 {
        if set_fits(w, size) {
            return Walked::On(grown(w, end, size, set_kind(size)));
        }
        return Walked::Broken(w.at);
    }
    Walked::Broken(w.at)
}

// x03: a count.
fn step_unset(bytes: &[u8], w: Walk, start: usize, end: usize) -> Walked
    requires stands { Stands bytes.now w.at 3 start end }
    requires owed_bound { w.words + w.owed ≤ 65024 }
    ensures { Stepped bytes.now w result }
{
    if end - start == NUMBER_BYTES {
        let size = usize::from(number_at(bytes, start));
        if unset_fits(w, size) {
            return Walked::On(grown(w, end, size, SKIPPED));
        }
        return Walked::Broken(w.at);
    }
    Walked::Broken(w.at)
}

// x00: nothing, and nothing after it.
fn step_end(bytes: &[u8], w: Walk, start: usize, end: usize) -> Walked
    requires { Stands bytes.now w.at 0 start end }
    ensures { Stepped bytes.now w result }
{
    if (start == end) & (w.owed == 0) {
        if end == bytes.len() {
            return Walked::Ended(Counts {
                blocks: w.blocks,
                words: w.words,
                labels: w.labels,
                relocations: w.relocations,
            });
        }
        return Walked::Broken(end);
    }
    Walked::Broken(w.at)
}

// Behind a label whose name has so many bytes.
fn labelled(w: Walk, at: usize, name: usize) -> Walk
    requires labels_bound { w.labels < 1024 }
    requires name_bound { w.named + name ≤ 65600 }
    ensures { result ≡ behind_label w at name }
{
    Walk {
        at,
        labels: w.labels + 1,
        named: w.named + name,
        ..w
    }
}

// A label may follow, if its name may.
fn label_fits(w: Walk) -> bool
    ensures { result ≡ label_fits w }
{
    (w.owed == 0) & (w.relocations == 0) & (w.labels < LABELS)
}

// A name may follow that of the last of n labels.
fn name_follows(bytes: &[u8], places: &[usize], n: usize, name: &[u8]) -> bool
    requires { n ≤ length places.now }
    ensures { (s : State) (end : ℕ) → Listed bytes.now places.now n s end → result ≡ name_fits s.last name.now }
{
    if n == 0 {
        return object_names::is_label(name);
    }
    let last = places[n - 1];
    let order = base_text::compare_bytes(stored_seek::label_name(bytes, last), name);
    matches!(order, Ordering::Less) && object_names::is_label(name)
}

// x04 and x05, behind an address if there is one: a name. Its field is noted for relocations.
fn step_label(bytes: &[u8], places: &mut [usize], w: Walk, start: usize, end: usize) -> Walked
    requires going { Going bytes.now places.old w }
    requires named_at { NamedAt bytes.now w.at start end }
    ensures { Moves bytes.now places.old places.new w result }
{
    if label_fits(w) {
        let k = w.labels;
        let name = stored_read::part_of(bytes, start, end);
        if name_follows(bytes, places, k, name) {
            places[k] = w.at;
            return Walked::On(labelled(w, end, end - start));
        }
        return Walked::Broken(w.at);
    }
    Walked::Broken(w.at)
}

// x04: an address and a name.
fn step_defined(bytes: &[u8], places: &mut [usize], w: Walk, start: usize, end: usize) -> Walked
    requires going { Going bytes.now places.old w }
    requires stands { Stands bytes.now w.at 4 start end }
    ensures { Moves bytes.now places.old places.new w result }
{
    if end - start < NUMBER_BYTES {
        return Walked::Broken(w.at);
    }
    step_label(bytes, places, w, start + NUMBER_BYTES, end)
}

// Behind a relocation at an address below `least`, of a label row; its word was found from that field on.
fn relocated(w: Walk, at: usize, least: usize, row: usize, seen: usize, address: usize) -> Walk
    requires { w.relocations < 1024 }
    ensures { result ≡ behind_reloc w at least row seen address }
{
    Walk {
        at,
        relocations: w.relocations + 1,
        least,
        row,
        seen,
        address,
        ..w
    }
}

// A relocation at an address may follow, if its word and its name allow it.
fn reloc_fits(w: Walk, wanted: usize) -> bool
    ensures { result ≡ reloc_fits w wanted }
{
    (w.owed == 0) & (w.least <= wanted) & (w.relocations < RELOCATIONS)
}

// A relocation at an address, whose name stands from `start` on.
fn step_named(
    bytes: &[u8],
    places: &[usize],
    w: Walk,
    wanted: usize,
    start: usize,
    end: usize,
) -> Walked
    requires going { Going bytes.now places.now w }
    requires reloc_at { RelocAt bytes.now w.at wanted start end }
    requires wanted_value { reloc_fits w wanted ≡ true }
    ensures { Moves bytes.now places.now places.now w result }
{
    let word = stored_seek::seek_word(bytes, w.at, w.seen, w.address, wanted);
    if word.zero {
        let name = stored_read::part_of(bytes, start, end);
        match stored_seek::seek_near(bytes, places, w.labels, w.row, name) {
            Some(row) => {
                return Walked::On(relocated(w, end, wanted + 1, row, word.seen, word.address));
            }
            None => {
                return Walked::Broken(w.at);
            }
        }
    }
    Walked::Broken(w.at)
}

// x06: an address and a name.
fn step_relocation(bytes: &[u8], places: &[usize], w: Walk, start: usize, end: usize) -> Walked
    requires going { Going bytes.now places.now w }
    requires stands { Stands bytes.now w.at 6 start end }
    ensures { Moves bytes.now places.now places.now w result }
{
    if end - start < NUMBER_BYTES {
        return Walked::Broken(w.at);
    }
    let wanted = usize::from(number_at(bytes, start));
    if reloc_fits(w, wanted) {
        return step_named(bytes, places, w, wanted, start + NUMBER_BYTES, end);
    }
    Walked::Broken(w.at)
}

// A field that is whole, by its tag.
fn step_field(
    bytes: &[u8],
    places: &mut [usize],
    w: Walk,
    tag: u8,
    start: usize,
    end: usize,
) -> Walked
    requires going { Going bytes.now places.old w }
    requires stands { Stands bytes.now w.at tag start end }
    ensures { Moves bytes.now places.old places.new w result }
{
    match tag {
        END => step_end(bytes, w, start, end),
        BLOCK => step_block(bytes, w, start, end),
        SET_WORDS => step_set(w, start, end),
        UNSET_WORDS => step_unset(bytes, w, start, end),
        DEFINED_LABEL => step_defined(bytes, places, w, start, end),
        EXTERNAL_LABEL => step_label(bytes, places, w, start, end),
        RELOCATION => step_relocation(bytes, places, w, start, end),
        _ => Walked::Broken(w.at),
    }
}

// The next field.
pub fn step(bytes: &[u8], places: &mut [usize], w: Walk) -> Walked
    requires { Going bytes.now places.old w }
    ensures { (length places.new ≡ length places.old) × ((s : State) → Tells bytes.now places.old w s → Steps bytes.now places.new w s result) }
{
    match stored_read::field_at(bytes, w.at) {
        Field::Over => Walked::Broken(w.at),
        Field::CutShort => Walked::Broken(w.at),
        Field::Found { tag, start, end } => step_field(bytes, places, w, tag, start, end),
    }
}
