// An object in six lent buffers: its counts, what 42 asks of the buffers, and the rows of its tables read.
#![tactic(auto)]

ghost use Rattle.std.specs.Prelude.{◌≡◌, map, ◌+◌, ◌*◌, ◌≤◌, length, get_or};
ghost use Rattle.rules.specs.Tokens.{upper};
ghost use Rattle.rules.specs.Buffers.{six, short, lent_words, name_row, lab_row};
ghost use Rattle.base_text.specs.Names.{ordered};
ghost use Rattle.object.specs.Meaning.{lab};
ghost use Rattle.object.specs.Slots.{upper_name, Rising, Slotted};

use base_capacities::{
    BLOCK_CELLS, BLOCKS, DEFINED, LABEL_CELLS, LABEL_FLAG, LABELS, NAME_BYTES, NAME_LENGTH,
    NAME_START, RELOCATION_CELLS, RELOCATIONS, WORDS,
};
use std::cmp::Ordering;

// The least lengths of the tables and of the name buffer: room for full capacities.
pub const BLOCK_ROOM: usize = BLOCKS * BLOCK_CELLS;

pub const LABEL_ROOM: usize = LABELS * LABEL_CELLS;

pub const RELOCATION_ROOM: usize = RELOCATIONS * RELOCATION_CELLS;

pub const NAME_ROOM: usize = LABELS * NAME_BYTES;

// Counts of blocks, words, labels and relocations. What stands in the six lent buffers up to these counts is the object.
#[derive(Clone, Copy)]
pub struct Counts {
    pub blocks: usize,
    pub words: usize,
    pub labels: usize,
    pub relocations: usize,
}

// What a label row says. No Option: an external is no absence, but said of the label.
#[derive(Clone, Copy)]
pub enum Label {
    Defined(u32),
    External,
}

// 42: a table or the name buffer is shorter than full capacities need.
pub fn is_short(
    blocks: &[u16],
    words: &[u16],
    marks: &[u8],
    labels: &[u32],
    relocations: &[u32],
    names: &[u8],
) -> bool
    ensures { result ≡ short (six blocks.now words.now marks.now labels.now relocations.now names.now) }
{
    (blocks.len() < BLOCK_ROOM)
        | (labels.len() < LABEL_ROOM)
        | (relocations.len() < RELOCATION_ROOM)
        | (names.len() < NAME_ROOM)
}

// The lent words: the least of the word buffer, its set marks and WORDS.
pub fn lent_words(words: &[u16], marks: &[u8]) -> usize
    ensures { result ≡ lent_words words.now marks.now }
{
    words.len().min(marks.len()).min(WORDS)
}

// The name of label row k, as a part of the lent name bytes; empty where the row or its name is not there.
pub fn label_name<'a>(labels: &[u32], names: &'a [u8], k: usize) -> &'a [u8]
    ensures { result.now ≡ name_row labels.now names.now k }
{
    if labels.len() / LABEL_CELLS <= k {
        return &names[0..0];
    }
    let i = k * LABEL_CELLS;
    let start = labels[i + NAME_START] as usize;
    let size = labels[i + NAME_LENGTH] as usize;
    if names.len() <= start {
        return &names[0..0];
    }
    if names.len() - start < size {
        return &names[start..];
    }
    &names[start..start + size]
}

// The same of a row that is there and whose name stands within the name bytes.
pub fn name_of<'a>(labels: &[u32], names: &'a [u8], k: usize) -> &'a [u8]
    requires k_in_bounds { k * 4 + 4 ≤ length labels.now }
    requires k_in_bounds_2 { get_or labels.now (k * 4 + 2) 0 + get_or labels.now (k * 4 + 3) 0 ≤ length names.now }
    ensures { result.now ≡ name_row labels.now names.now k }
{
    let i = k * LABEL_CELLS;
    let start = labels[i + NAME_START] as usize;
    let end = start + labels[i + NAME_LENGTH] as usize;
    &names[start..end]
}

// What label row k says.
pub fn label_at(labels: &[u32], k: usize) -> Label
    requires { k * 4 + 4 ≤ length labels.now }
    ensures { lab result ≡ lab_row labels.now k }
{
    let i = k * LABEL_CELLS;
    if labels[i + LABEL_FLAG] == DEFINED {
        return Label::Defined(labels[i]);
    }
    Label::External
}

// The order of the name of row k and a name, both in upper case.
pub fn compare_row(labels: &[u32], names: &[u8], k: usize, name: &[u8]) -> Ordering
    ensures { result ≡ ordered (upper_name labels.now names.now k) (map upper name.now) }
{
    base_text::compare_names(label_name(labels, names, k), name)
}

// The row of a name among n rows that rise by name in upper case, or the row where it belongs, by halving.
pub fn slot_of(labels: &[u32], names: &[u8], n: usize, name: &[u8]) -> Result<usize, usize>
    requires { Rising labels.now names.now n }
    ensures { Slotted labels.now names.now n (map upper name.now) result }
{
    let mut lo = 0;
    let mut hi = n;
    // A while: each turn halves what is left.
    while lo < hi {
        let mid = lo + (hi - lo) / 2;
        match compare_row(labels, names, mid, name) {
            Ordering::Less => {
                lo = mid + 1;
            }
            Ordering::Greater => {
                hi = mid;
            }
            Ordering::Equal => {
                return Ok(mid);
            }
        }
    }
    Err(lo)
}
