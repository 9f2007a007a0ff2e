// An object as a person sees it, in pieces of text: what it has, each word beside its label and its disassembly, and the labels at no word.
#![tactic(auto)]

ghost use Rattle.std.specs.Prelude.{◌≡◌, ◌+◌, ◌*◌, ◌%◌, ◌++◌, slice_index};
ghost use Rattle.rules.specs.Buffers.{six};
ghost use Rattle.object.specs.Meaning.{counts};
ghost use Rattle.view_text.specs.Put.{Put};
ghost use Rattle.view_text.specs.Texts.{counted};
ghost use Rattle.view_word.specs.First.{first};
ghost use Rattle.view_word.specs.Labels.{reloc_at};
ghost use Rattle.view_object.specs.Pieces.{heading, place, place_of, block_line, above, marked_line, word_line, address_text, placed_text, word_text, covers, has_word, label_address, apart, external_line, bare_line, apart_line, gap_before, label_text, rest_text, piece_text, piece_count};
ghost use Rattle.view_object.specs.Found.{found};

use base_capacities::{
    ADDRESSES, BLOCK_CELLS, BLOCK_LENGTH, LABEL_ADDRESS, RELOCATION_LABEL, UNSET,
};
use object::Counts;
use std::num::wrapping_add_u16;
use view_text::{put, put_byte, put_count, put_hex};

// Room for the longest piece: a line for each of 1,023 labels, a block's heading and a word's line.
pub const PIECE_BYTES: usize = 98304;

// A block's row begins with its start.
const BLOCK_START: usize = 0;

// Where a word stands: its block's start and length, and how many words of the block come before it.
#[derive(Clone, Copy)]
struct Place {
    start: u16,
    size: u16,
    before: u16,
}

// The word at a place; 0 past the end.
fn word_at(words: &[u16], i: usize) -> u16
    ensures { result ≡ slice_index words.now i }
{
    words.get(i).copied().unwrap_or(0)
}

// Cell i of block row k; 0 past the end.
fn block_cell(blocks: &[u16], k: usize, i: usize) -> u16
    ensures { result ≡ slice_index blocks.now (k * 2 + i) }
{
    // The row is tested before it is multiplied: over saturating numbers the view of an object of many blocks took up to twice as long.
    if blocks.len() / BLOCK_CELLS < k {
        return 0;
    }
    blocks[k * BLOCK_CELLS..].get(i).copied().unwrap_or(0)
}

// A count of something, and a text behind it.
fn put_counted(out: &mut [u8], at: usize, n: usize, what: &[u8], behind: &[u8]) -> usize
    ensures { Put out.old out.new at result (counted n what.now ++ behind.now) }
{
    let a = put_count(out, at, n as u64, what);
    put(out, a, behind)
}

// What an object has.
pub fn put_heading(out: &mut [u8], c: Counts) -> usize
    ensures { Put out.old out.new 0 result (heading (counts c)) }
{
    let a = put(out, 0, b"ACCEPTED: ");
    let b = put_counted(out, a, c.blocks, b"block", b", ");
    let d = put_counted(out, b, c.words, b"word", b", ");
    let e = put_counted(out, d, c.labels, b"label", b", ");
    put_counted(out, e, c.relocations, b"relocation", b"\n")
}

// Where word i stands among the words of n blocks.
fn place_of(blocks: &[u16], n: usize, i: usize) -> Option<Place>
    ensures { found result ≡ place_of blocks.now n i }
{
    let mut left = i;
    for k in 0..n {
        let start = block_cell(blocks, k, BLOCK_START);
        let size = block_cell(blocks, k, BLOCK_LENGTH);
        let width = usize::from(size);
        if left < width {
            let before = left as u16;
            return Some(Place {
                start,
                size,
                before,
            });
        }
        left -= width;
    }
    None
}

// The last address of a block.
fn last_address(start: u16, size: u16) -> u16
    ensures { result ≡ (start + size + 65535) % 65536 }
{
    wrapping_add_u16(wrapping_add_u16(start, size), u16::MAX)
}

// The line above a block, after an empty one.
fn put_block(out: &mut [u8], start: u16, size: u16) -> usize
    ensures { Put out.old out.new 0 result (block_line start size) }
{
    let a = put(out, 0, b"\nBLOCK ");
    let b = put_hex(out, a, start);
    let c = put(out, b, b" to ");
    let d = put_hex(out, c, last_address(start, size));
    let e = put(out, d, b", ");
    put_counted(out, e, usize::from(size), b"word", b"\n")
}

// The same before a block's first word; nothing before another.
fn put_above(out: &mut [u8], start: u16, size: u16, before: u16) -> usize
    ensures { Put out.old out.new 0 result (above (place start size before)) }
{
    if before == 0 {
        return put_block(out, start, size);
    }
    0
}

// The line of a word that is set, with label row k: it waits for an external label where a relocation is at its address.
fn put_marked(
    out: &mut [u8],
    at: usize,
    c: Counts,
    labels: &[u32],
    relocations: &[u32],
    names: &[u8],
    k: usize,
    address: u16,
    word: u16,
) -> usize
    ensures { Put out.old out.new at result (marked_line (counts c) labels.now relocations.now names.now k address word (reloc_at relocations.now c.relocations address)) }
{
    let row = view_word::relocation_row(relocations, c.relocations, address);
    if row < c.relocations {
        let external = view_word::relocation_cell(relocations, row, RELOCATION_LABEL) as usize;
        return view_word::put_waiting(out, at, labels, names, c.labels, k, address, external);
    }
    view_word::put_set(out, at, labels, names, c.labels, k, address, word)
}

// The line of a word, with label row k.
fn put_word(
    out: &mut [u8],
    at: usize,
    c: Counts,
    labels: &[u32],
    relocations: &[u32],
    names: &[u8],
    k: usize,
    address: u16,
    word: u16,
    mark: u8,
) -> usize
    ensures { Put out.old out.new at result (word_line (counts c) labels.now relocations.now names.now k address word mark) }
{
    if mark == UNSET {
        return view_word::put_unset(out, at, labels, names, c.labels, k, address);
    }
    put_marked(out, at, c, labels, relocations, names, k, address, word)
}

// A word with its labels.
fn put_address(
    out: &mut [u8],
    at: usize,
    c: Counts,
    labels: &[u32],
    relocations: &[u32],
    names: &[u8],
    address: u16,
    word: u16,
    mark: u8,
) -> usize
    ensures { Put out.old out.new at result (address_text (counts c) labels.now relocations.now names.now address word mark) }
{
    let k = view_word::last_row(labels, c.labels, address);
    let a = view_word::put_labels(out, at, labels, names, c.labels, address, k);
    put_word(
        out,
        a,
        c,
        labels,
        relocations,
        names,
        k,
        address,
        word,
        mark,
    )
}

// A word at its place in a block.
fn put_placed(
    out: &mut [u8],
    c: Counts,
    labels: &[u32],
    relocations: &[u32],
    names: &[u8],
    at: Place,
    word: u16,
    mark: u8,
) -> usize
    ensures { Put out.old out.new 0 result (placed_text (counts c) labels.now relocations.now names.now (place at.start at.size at.before) word mark) }
{
    let a = put_above(out, at.start, at.size, at.before);
    let address = wrapping_add_u16(at.start, at.before);
    put_address(out, a, c, labels, relocations, names, address, word, mark)
}

// Word i of an object, with what stands before it.
fn put_word_piece(
    out: &mut [u8],
    c: Counts,
    blocks: &[u16],
    words: &[u16],
    marks: &[u8],
    labels: &[u32],
    relocations: &[u32],
    names: &[u8],
    i: usize,
) -> usize
    ensures { Put out.old out.new 0 result (word_text (counts c) (six blocks.now words.now marks.now labels.now relocations.now names.now) i) }
{
    match place_of(blocks, c.blocks, i) {
        Some(place) => {
            let word = word_at(words, i);
            let mark = base_text::byte_at(marks, i);
            put_placed(out, c, labels, relocations, names, place, word, mark)
        }
        None => 0,
    }
}

// Whether block row k has a word at an address: it is less than the length past the start.
fn covers_at(blocks: &[u16], k: usize, address: u16) -> bool
    ensures { result ≡ covers blocks.now address k }
{
    let start = u32::from(block_cell(blocks, k, BLOCK_START));
    let size = u32::from(block_cell(blocks, k, BLOCK_LENGTH));
    (u32::from(address) + (ADDRESSES - start)) % ADDRESSES < size
}

// The first of n blocks that has a word at an address; n where there is none.
fn block_row(blocks: &[u16], n: usize, address: u16) -> usize
    ensures { result ≡ first (covers blocks.now address) n }
{
    for row in 0..n {
        if covers_at(blocks, row, address) {
            return row;
        }
    }
    n
}

// Whether a word stands at an address, in one of n blocks.
fn has_word(blocks: &[u16], n: usize, address: u16) -> bool
    ensures { result ≡ has_word blocks.now n address }
{
    block_row(blocks, n, address) < n
}

// The address of label row k: its low sixteen bits.
fn label_address(labels: &[u32], k: usize) -> u16
    ensures { result ≡ label_address labels.now k }
{
    (view_word::label_cell(labels, k, LABEL_ADDRESS) % ADDRESSES) as u16
}

// Whether label row k is external, or defined where no word of n blocks is.
fn is_apart(blocks: &[u16], n: usize, labels: &[u32], k: usize) -> bool
    ensures { result ≡ apart n blocks.now labels.now k }
{
    if view_word::is_defined(labels, k) {
        return !has_word(blocks, n, label_address(labels, k));
    }
    true
}

// The first of m label rows that is; m where there is none.
fn apart_row(blocks: &[u16], n: usize, labels: &[u32], m: usize) -> usize
    ensures { result ≡ first (apart n blocks.now labels.now) m }
{
    for row in 0..m {
        if is_apart(blocks, n, labels, row) {
            return row;
        }
    }
    m
}

// An empty line before the first of some rows.
fn put_gap(out: &mut [u8], k: usize, first: usize) -> usize
    ensures { Put out.old out.new 0 result (gap_before k first) }
{
    if k == first {
        return put_byte(out, 0, b'\n');
    }
    0
}

// The line of an external label.
fn put_external(out: &mut [u8], at: usize, name: &[u8]) -> usize
    ensures { Put out.old out.new at result (external_line name.now) }
{
    let a = put(out, at, b"EXTERNAL ");
    let b = put(out, a, name);
    put_byte(out, b, b'\n')
}

// The line of a label that is defined where no word is, as behind a block's last word.
fn put_bare(out: &mut [u8], at: usize, address: u16, name: &[u8]) -> usize
    ensures { Put out.old out.new at result (bare_line address name.now) }
{
    let a = put(out, at, b"LABEL ");
    let b = put_hex(out, a, address);
    let c = put_byte(out, b, b' ');
    let d = put(out, c, name);
    put(out, d, b", where no word is\n")
}

// The line of label row k, which is at no word.
fn put_apart(out: &mut [u8], at: usize, labels: &[u32], names: &[u8], k: usize) -> usize
    ensures { Put out.old out.new at result (apart_line labels.now names.now k) }
{
    let name = object::label_name(labels, names, k);
    if view_word::is_defined(labels, k) {
        return put_bare(out, at, label_address(labels, k), name);
    }
    put_external(out, at, name)
}

// Label row k, if it is at no word.
fn put_label_piece(
    out: &mut [u8],
    c: Counts,
    blocks: &[u16],
    labels: &[u32],
    names: &[u8],
    k: usize,
) -> usize
    ensures { Put out.old out.new 0 result (label_text (counts c) blocks.now labels.now names.now k) }
{
    if is_apart(blocks, c.blocks, labels, k) {
        let first = apart_row(blocks, c.blocks, labels, c.labels);
        let a = put_gap(out, k, first);
        return put_apart(out, a, labels, names, k);
    }
    0
}

// What follows the heading: words, then labels.
fn put_rest(
    out: &mut [u8],
    c: Counts,
    blocks: &[u16],
    words: &[u16],
    marks: &[u8],
    labels: &[u32],
    relocations: &[u32],
    names: &[u8],
    i: usize,
) -> usize
    ensures { Put out.old out.new 0 result (rest_text (counts c) (six blocks.now words.now marks.now labels.now relocations.now names.now) i) }
{
    if i < c.words {
        return put_word_piece(out, c, blocks, words, marks, labels, relocations, names, i);
    }
    let k = i - c.words;
    if k < c.labels {
        return put_label_piece(out, c, blocks, labels, names, k);
    }
    0
}

// Piece p of an object that stands in lent buffers, from the front of `out`: the heading, then the words, then the labels.
pub fn put_piece(
    c: Counts,
    blocks: &[u16],
    words: &[u16],
    marks: &[u8],
    labels: &[u32],
    relocations: &[u32],
    names: &[u8],
    p: usize,
    out: &mut [u8],
) -> usize
    ensures { Put out.old out.new 0 result (piece_text (counts c) (six blocks.now words.now marks.now labels.now relocations.now names.now) p) }
{
    if p == 0 {
        return put_heading(out, c);
    }
    put_rest(
        out,
        c,
        blocks,
        words,
        marks,
        labels,
        relocations,
        names,
        p - 1,
    )
}

// How many pieces an object has.
pub fn pieces(c: Counts) -> usize
    ensures { result ≡ piece_count (counts c) }
{
    1usize.saturating_add(c.words).saturating_add(c.labels)
}
