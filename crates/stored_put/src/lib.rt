// A field of stored bytes put into six lent buffers: what was read stands in the one layout of an object, zeros behind.
#![tactic(auto)]

ghost use Rattle.std.specs.Prelude.{◌≡◌, ◌+◌, ◌-◌, ◌*◌, ◌≤◌, ◌<◌, length};
ghost use Rattle.std.proofs.Math.Seq.{paste};
ghost use Rattle.rules.specs.Buffers.{six};
ghost use Rattle.laws_stored.specs.Offsets.{number_at, part_at};
ghost use Rattle.base_buffers.specs.Rows.{with_row};
ghost use Rattle.stored_put.specs.Laid.{ones, turned_numbers, turned_from, PutWords, WordRoom, LabelRoom, Labelled, Met, Puts};

use base_capacities::{DEFINED, EXTERNAL, SET};
use object_layout_labels::{NO_ADDRESS, put_label};
use stored_fields::{
    BLOCK, DEFINED_LABEL, EXTERNAL_LABEL, HEAD_BYTES, NUMBER_BYTES, RELOCATION, SET_WORDS,
};
use stored_read::{number_at, part_of};
use stored_walk::Walk;

// x01, whose content begins at `start`: the start and the length of block k.
fn put_block(bytes: &[u8], start: usize, blocks: &mut [u16], k: usize)
    requires { (start + 4 ≤ length bytes.now) × (k * 2 + 1 < length blocks.old) }
    ensures { blocks.new ≡ with_row blocks.old k (number_at bytes.now start) (number_at bytes.now (start + 2)) }
{
    let first = number_at(bytes, start);
    let count = number_at(bytes, start + NUMBER_BYTES);
    base_buffers::row(blocks, k, first, count);
}

// How many values a byte has.
const BYTE: u16 = 0x100;

// n numbers as words from `at` on, the byte that comes first as the low one: so the loop only copies bytes, many at once.
fn put_turned(bytes: &[u8], start: usize, n: usize, words: &mut [u16], at: usize)
    requires { (start + n + n ≤ length bytes.now) × (at + n ≤ length words.old) }
    ensures { words.new ≡ paste words.old at (turned_numbers bytes.now start n) n }
{
    for (i, word) in words[at..at + n].iter_mut().enumerate() {
        let first = start + i * NUMBER_BYTES;
        let second = first + 1;
        *word = u16::from(bytes[first]) + u16::from(bytes[second]) * BYTE;
    }
}

// The bytes of n words from `at` on change places.
fn turn(words: &mut [u16], at: usize, n: usize)
    requires { at + n ≤ length words.old }
    ensures { words.new ≡ paste words.old at (turned_from words.old at n) n }
{
    for word in &mut words[at..at + n] {
        *word = *word % BYTE * BYTE + *word / BYTE;
    }
}

// n words from `at` on are marked as set.
fn put_marks(marks: &mut [u8], at: usize, n: usize)
    requires { at + n ≤ length marks.old }
    ensures { marks.new ≡ paste marks.old at (ones n) n }
{
    marks[at..at + n].fill(SET);
}

// x02: n words, each marked as set, from word `at` on. Three loops of which each does one thing go faster than one.
fn put_words(bytes: &[u8], start: usize, n: usize, words: &mut [u16], marks: &mut [u8], at: usize)
    requires { WordRoom bytes.now start n words.old marks.old at }
    ensures { PutWords bytes.now start n words.old marks.old words.new marks.new at }
{
    put_turned(bytes, start, n, words, at);
    turn(words, at, n);
    put_marks(marks, at, n);
}

// x04: the label of row k, defined at an address, whose name goes behind `at` name bytes.
pub fn put_defined(
    bytes: &[u8],
    start: usize,
    end: usize,
    labels: &mut [u32],
    names: &mut [u8],
    k: usize,
    at: usize,
)
    requires { (start + 2 ≤ length bytes.now) × LabelRoom labels.old names.old k at (end - (start + 2)) }
    ensures { Labelled labels.old names.old labels.new names.new k at (number_at bytes.now start) 0 (part_at bytes.now (start + 2) (end - (start + 2))) }
{
    let address = u32::from(number_at(bytes, start));
    let name = part_of(bytes, start + NUMBER_BYTES, end);
    put_label(labels, names, k, at, address, DEFINED, name);
}

// x05: the external of row k.
pub fn put_external(
    bytes: &[u8],
    start: usize,
    end: usize,
    labels: &mut [u32],
    names: &mut [u8],
    k: usize,
    at: usize,
)
    requires { LabelRoom labels.old names.old k at (end - start) }
    ensures { Labelled labels.old names.old labels.new names.new k at 0 1 (part_at bytes.now start (end - start)) }
{
    let name = part_of(bytes, start, end);
    put_label(labels, names, k, at, NO_ADDRESS, EXTERNAL, name);
}

// x06: the address of relocation k, and the row of its label.
fn put_relocation(bytes: &[u8], start: usize, relocations: &mut [u32], k: usize, row: usize)
    requires { (start + 2 ≤ length bytes.now) × (k * 2 + 1 < length relocations.old) × (row ≤ 262144) }
    ensures { relocations.new ≡ with_row relocations.old k (number_at bytes.now start) row }
{
    let address = u32::from(number_at(bytes, start));
    base_buffers::row(relocations, k, address, row as u32);
}

// A field that may follow what was read, by its tag. Where words are unset the buffers are zero already.
pub fn put_field(
    bytes: &[u8],
    w: Walk,
    next: Walk,
    blocks: &mut [u16],
    words: &mut [u16],
    marks: &mut [u8],
    labels: &mut [u32],
    relocations: &mut [u32],
    names: &mut [u8],
)
    requires { Met bytes.now w next (six blocks.old words.old marks.old labels.old relocations.old names.old) }
    ensures { Puts bytes.now w next (six blocks.old words.old marks.old labels.old relocations.old names.old) (six blocks.new words.new marks.new labels.new relocations.new names.new) }
{
    let at = w.at;
    let start = at + HEAD_BYTES;
    match bytes[at] {
        BLOCK => {
            put_block(bytes, start, blocks, w.blocks);
        }
        SET_WORDS => {
            put_words(bytes, start, next.words - w.words, words, marks, w.words);
        }
        DEFINED_LABEL => {
            put_defined(bytes, start, next.at, labels, names, w.labels, w.named);
        }
        EXTERNAL_LABEL => {
            put_external(bytes, start, next.at, labels, names, w.labels, w.named);
        }
        RELOCATION => {
            put_relocation(bytes, start, relocations, w.relocations, next.row);
        }
        _ => {}
    }
}
