// A word of an object as a person sees it, as text in a lent buffer: its address, itself, its label and its disassembly; and the label rows at an address.
#![tactic(auto)]

ghost use Rattle.std.specs.Prelude.{◌≡◌, ◌+◌, ◌-◌, ◌*◌, ◌%◌, slice_index};
ghost use Rattle.std.proofs.Math.Option.{some};
ghost use Rattle.view_text.specs.Put.{Put};
ghost use Rattle.view_instruction.specs.Spelled.{reached};
ghost use Rattle.view_word.specs.Labels.{defined_row, stands_at, label_at, later, last_at, relocates, reloc_at, name_text, label_line, own_line, own_lines};
ghost use Rattle.view_word.specs.Words.{front, label_behind, reached_note, char_note, note_by, beside, set_line, unset_line, waiting_line};

use base_capacities::{DEFINED, LABEL_ADDRESS, LABEL_CELLS, LABEL_FLAG, RELOCATION_CELLS};
use std::num::wrapping_add_u16;
use view_text::{put, put_byte, put_hex, put_spaces};

// A relocation's row begins with its address.
const RELOCATION_ADDRESS: usize = 0;

// The columns of words, labels, instructions and what is noted beside them.
const WORD_COLUMN: usize = 7;

const LABEL_COLUMN: usize = 14;

const INSTRUCTION_COLUMN: usize = 32;

const NOTE_COLUMN: usize = 52;

// The characters that are shown: from the space up to the last before DEL.
const FIRST_SHOWN: u16 = b' ' as u16;

const PAST_SHOWN: u16 = 127;

// Cell i of label row k, and of relocation k; 0 past the end.
pub fn label_cell(labels: &[u32], k: usize, i: usize) -> u32
    ensures { result ≡ slice_index labels.now (k * 4 + i) }
{
    // The row is tested before it is multiplied: by `get` and saturating sums the whole view took half as long again.
    if labels.len() / LABEL_CELLS < k {
        return 0;
    }
    let row = k * LABEL_CELLS;
    if i < labels.len() - row {
        return labels[row + i];
    }
    0
}

pub fn relocation_cell(relocations: &[u32], k: usize, i: usize) -> u32
    ensures { result ≡ slice_index relocations.now (k * 2 + i) }
{
    // As a label row's.
    if relocations.len() / RELOCATION_CELLS < k {
        return 0;
    }
    let row = k * RELOCATION_CELLS;
    if i < relocations.len() - row {
        return relocations[row + i];
    }
    0
}

// Whether label row k is defined.
pub fn is_defined(labels: &[u32], k: usize) -> bool
    ensures { result ≡ defined_row labels.now k }
{
    label_cell(labels, k, LABEL_FLAG) == DEFINED
}

// Whether label row k is defined at an address.
fn stands_at(labels: &[u32], k: usize, address: u16) -> bool
    ensures { result ≡ stands_at labels.now address k }
{
    is_defined(labels, k) & (label_cell(labels, k, LABEL_ADDRESS) == u32::from(address))
}

// The first of n label rows that is defined at an address; n where there is none.
fn label_row(labels: &[u32], n: usize, address: u16) -> usize
    ensures { result ≡ label_at labels.now n address }
{
    for row in 0..n {
        if stands_at(labels, row, address) {
            return row;
        }
    }
    n
}

// Label row k if it is defined at an address, else the last row that was.
fn later_row(labels: &[u32], k: usize, address: u16, last: usize) -> usize
    ensures { result ≡ later labels.now address k last }
{
    if stands_at(labels, k, address) {
        return k;
    }
    last
}

// The last of n label rows that is defined at an address; n where there is none.
pub fn last_row(labels: &[u32], n: usize, address: u16) -> usize
    ensures { result ≡ last_at labels.now n address n }
{
    let mut last = n;
    for row in 0..n {
        last = later_row(labels, row, address, last);
    }
    last
}

// Whether relocation k is at an address.
fn relocates_at(relocations: &[u32], k: usize, address: u16) -> bool
    ensures { result ≡ relocates relocations.now address k }
{
    relocation_cell(relocations, k, RELOCATION_ADDRESS) == u32::from(address)
}

// The first of n relocations at an address; n where there is none.
pub fn relocation_row(relocations: &[u32], n: usize, address: u16) -> usize
    ensures { result ≡ reloc_at relocations.now n address }
{
    for row in 0..n {
        if relocates_at(relocations, row, address) {
            return row;
        }
    }
    n
}

// The name of label row k of n; no name past them.
fn name_of<'a>(labels: &[u32], names: &'a [u8], n: usize, k: usize) -> &'a [u8]
    ensures { result.now ≡ name_text labels.now names.now n k }
{
    if k < n {
        return object::label_name(labels, names, k);
    }
    &names[0..0]
}

// A label's own line.
fn put_label(out: &mut [u8], at: usize, address: u16, name: &[u8]) -> usize
    ensures { Put out.old out.new at result (label_line address name.now) }
{
    let a = put_hex(out, at, address);
    let b = put_spaces(out, at, a, LABEL_COLUMN);
    let c = put(out, b, name);
    put_byte(out, c, b'\n')
}

// Label row k, if it is defined at an address and is not the row that the word's line shows.
fn put_own(
    out: &mut [u8],
    at: usize,
    labels: &[u32],
    names: &[u8],
    address: u16,
    shown: usize,
    k: usize,
) -> usize
    ensures { Put out.old out.new at result (own_line labels.now names.now address shown k) }
{
    if stands_at(labels, k, address) {
        if k == shown {
            return at;
        }
        return put_label(out, at, address, object::label_name(labels, names, k));
    }
    at
}

// The lines of the labels at an address, of n rows, but of the row that the word's line shows.
pub fn put_labels(
    out: &mut [u8],
    at: usize,
    labels: &[u32],
    names: &[u8],
    n: usize,
    address: u16,
    shown: usize,
) -> usize
    ensures { Put out.old out.new at result (own_lines labels.now names.now address shown n) }
{
    let mut end = at;
    for row in 0..n {
        end = put_own(out, end, labels, names, address, shown, row);
    }
    end
}

// What stands before the column of instructions.
fn put_front(out: &mut [u8], at: usize, address: u16, shown: &[u8], name: &[u8]) -> usize
    ensures { Put out.old out.new at result (front address shown.now name.now) }
{
    let a = put_hex(out, at, address);
    let b = put_spaces(out, at, a, WORD_COLUMN);
    let c = put(out, b, shown);
    let d = put_spaces(out, at, c, LABEL_COLUMN);
    let e = put(out, d, name);
    put_spaces(out, at, e, INSTRUCTION_COLUMN)
}

// A character, where a word is one, in the line that begins at `start`.
fn put_char(out: &mut [u8], start: usize, at: usize, word: u16) -> usize
    ensures { Put out.old out.new at result (beside (at - start) (char_note word)) }
{
    if word < FIRST_SHOWN {
        return at;
    }
    if word < PAST_SHOWN {
        let a = put_spaces(out, start, at, NOTE_COLUMN);
        let b = put(out, a, b"; '");
        let c = put_byte(out, b, word as u8);
        return put_byte(out, c, b'\'');
    }
    at
}

// A space and the name of a label row, if it is one of n.
fn put_behind(out: &mut [u8], at: usize, labels: &[u32], names: &[u8], n: usize, k: usize) -> usize
    ensures { Put out.old out.new at result (label_behind labels.now names.now n k) }
{
    if k < n {
        let a = put_byte(out, at, b' ');
        return put(out, a, name_of(labels, names, n, k));
    }
    at
}

// The address that an instruction reaches, with its label.
fn put_reached(
    out: &mut [u8],
    start: usize,
    at: usize,
    labels: &[u32],
    names: &[u8],
    n: usize,
    target: u16,
) -> usize
    ensures { Put out.old out.new at result (beside (at - start) (some (reached_note labels.now names.now n target))) }
{
    let a = put_spaces(out, start, at, NOTE_COLUMN);
    let b = put(out, a, b"; ");
    let c = put_hex(out, b, target);
    put_behind(out, c, labels, names, n, label_row(labels, n, target))
}

// The address so far from the word behind this one.
fn target_of(address: u16, d: u16) -> u16
    ensures { result ≡ (address + 1 + d) % 65536 }
{
    wrapping_add_u16(wrapping_add_u16(address, 1), d)
}

// What a word's instruction reaches, or which character the word is.
fn put_note(
    out: &mut [u8],
    start: usize,
    at: usize,
    labels: &[u32],
    names: &[u8],
    n: usize,
    address: u16,
    word: u16,
    reach: Option<u16>,
) -> usize
    ensures { Put out.old out.new at result (beside (at - start) (note_by labels.now names.now n address word (reached reach))) }
{
    match reach {
        Some(d) => { put_reached(out, start, at, labels, names, n, target_of(address, d)) }
        None => put_char(out, start, at, word),
    }
}

// The line of a word that is set, with label row k of n.
pub fn put_set(
    out: &mut [u8],
    at: usize,
    labels: &[u32],
    names: &[u8],
    n: usize,
    k: usize,
    address: u16,
    word: u16,
) -> usize
    ensures { Put out.old out.new at result (set_line labels.now names.now n k address word) }
{
    let line = isa::disassembly::disassemble_line(word);
    let reach = view_instruction::line_reach(line);
    let shown = view_text::hex_text(word);
    let a = put_front(out, at, address, &shown, name_of(labels, names, n, k));
    let b = view_instruction::put_line(out, a, line);
    let c = put_note(out, at, b, labels, names, n, address, word, reach);
    put_byte(out, c, b'\n')
}

// The line of a word that a .blkw leaves unset.
pub fn put_unset(
    out: &mut [u8],
    at: usize,
    labels: &[u32],
    names: &[u8],
    n: usize,
    k: usize,
    address: u16,
) -> usize
    ensures { Put out.old out.new at result (unset_line labels.now names.now n k address) }
{
    let a = put_front(out, at, address, b"-", name_of(labels, names, n, k));
    put(out, a, b".blkw, not set\n")
}

// The line of a word that waits for the address of an external label.
pub fn put_waiting(
    out: &mut [u8],
    at: usize,
    labels: &[u32],
    names: &[u8],
    n: usize,
    k: usize,
    address: u16,
    external: usize,
) -> usize
    ensures { Put out.old out.new at result (waiting_line labels.now names.now n k address external) }
{
    let a = put_front(out, at, address, b"x0000", name_of(labels, names, n, k));
    let b = put(out, a, b".fill ");
    let c = put(out, b, name_of(labels, names, n, external));
    let d = put_spaces(out, at, c, NOTE_COLUMN);
    put(out, d, b"; external, known after a link\n")
}
