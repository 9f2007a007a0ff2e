// An object's blocks, labels and relocations as the bytes of their listing, one section behind the other.
#![tactic(auto)]

ghost use Rattle.std.specs.Prelude.{◌≡◌, ◌+◌, ◌*◌, ◌<◌, ◌≤◌, length, get_or};
ghost use mathlib.Core.List.{flat_map};
ghost use Rattle.rules.specs.Buffers.{BlocksOk, WordsOk, LabelsOk, view_blocks, view_labels, view_relocs, name_row, label_row, reloc_row};
ghost use Rattle.rules.specs.Listing.{label_line, reloc_line, block_lines};
ghost use Rattle.list_lines.specs.Appended.{Appended};
ghost use Rattle.list_sections.specs.Fronts.{label_front, reloc_front, block_text};
ghost use Rattle.list_sections.specs.Low.{RelocsLow, RelocsNamed};
ghost use Rattle.list_sections.specs.Sizes.{Sized, SizedAll};

use base_capacities::{
    BLOCK_CELLS, BLOCK_LENGTH, DEFINED, LABEL_CELLS, LABEL_FLAG, RELOCATION_CELLS, RELOCATION_LABEL,
};

// How long what stands before the name is, in the lines of a defined label, an external and a relocation.
const LABEL_FRONT_BYTES: usize = 11;

const EXTERNAL_FRONT_BYTES: usize = 7;

const RELOCATION_FRONT_BYTES: usize = 9;

// The same with the line feed: what a line has besides its name.
pub const LABEL_LINE_REST: usize = LABEL_FRONT_BYTES + 1;

const EXTERNAL_LINE_REST: usize = EXTERNAL_FRONT_BYTES + 1;

pub const RELOCATION_LINE_REST: usize = RELOCATION_FRONT_BYTES + 1;

// A block's lines.
fn put_block(out: &mut [u8], at: usize, start: u16, words: &[u16], marks: &[u8]) -> usize
    requires words_bound { start + length words.now ≤ 65024 }
    requires words_len { length words.now ≡ length marks.now }
    requires marks_in_bounds { at + length (block_text start words.now marks.now) ≤ length out.old }
    ensures { Appended out.old out.new at result (block_text start words.now marks.now) }
{
    let size = words.len() as u16;
    let line = list_lines::block_line(start, size);
    let next = list_lines::put_text(out, at, &line);
    list_lines::put_cells(out, next, start, words, marks)
}

// What a defined label's line begins with.
fn label_front(address: u16) -> [u8; LABEL_FRONT_BYTES]
    ensures { result ≡ label_front address }
{
    let a = list_lines::hex4_of(address);
    [
        b'L', b'A', b'B', b'E', b'L', b' ', a[0], a[1], a[2], a[3], b' ',
    ]
}

// What a relocation's line begins with.
fn relocation_front(address: u16) -> [u8; RELOCATION_FRONT_BYTES]
    ensures { result ≡ reloc_front address }
{
    let a = list_lines::hex4_of(address);
    [b'R', b'E', b'L', b' ', a[0], a[1], a[2], a[3], b' ']
}

// The line of label row k.
fn put_label(out: &mut [u8], at: usize, labels: &[u32], names: &[u8], k: usize) -> usize
    requires k_in_bounds { k * 4 + 4 ≤ length labels.now }
    requires k_bound { get_or labels.now (k * 4) 0 < 65536 }
    requires k_in_bounds_2 { at + length (label_line (label_row labels.now names.now k)) ≤ length out.old }
    ensures { Appended out.old out.new at result (label_line (label_row labels.now names.now k)) }
{
    let i = k * LABEL_CELLS;
    let name = object::label_name(labels, names, k);
    if labels[i + LABEL_FLAG] == DEFINED {
        let front = label_front(labels[i] as u16);
        return list_lines::put_line(out, at, &front, name);
    }
    list_lines::put_line(out, at, b"EXTERN ", name)
}

// The lines of the first n labels.
pub fn put_labels(out: &mut [u8], at: usize, labels: &[u32], names: &[u8], n: usize) -> usize
    requires labels_ok { LabelsOk n labels.now names.now }
    requires names_in_bounds { at + length (flat_map label_line (view_labels n labels.now names.now)) ≤ length out.old }
    ensures { Appended out.old out.new at result (flat_map label_line (view_labels n labels.now names.now)) }
{
    let mut end = at;
    for k in 0..n {
        end = put_label(out, end, labels, names, k);
    }
    end
}

// The line of relocation row k.
fn put_relocation(
    out: &mut [u8],
    at: usize,
    relocations: &[u32],
    labels: &[u32],
    names: &[u8],
    k: usize,
) -> usize
    requires k_in_bounds { k * 2 + 2 ≤ length relocations.now }
    requires k_bound { get_or relocations.now (k * 2) 0 < 65536 }
    requires k_in_bounds_2 { at + length (reloc_line (reloc_row relocations.now labels.now names.now k)) ≤ length out.old }
    ensures { Appended out.old out.new at result (reloc_line (reloc_row relocations.now labels.now names.now k)) }
{
    let i = k * RELOCATION_CELLS;
    let row = relocations[i + RELOCATION_LABEL] as usize;
    let name = object::label_name(labels, names, row);
    let front = relocation_front(relocations[i] as u16);
    list_lines::put_line(out, at, &front, name)
}

// The lines of the first n relocations.
pub fn put_relocations(
    out: &mut [u8],
    at: usize,
    relocations: &[u32],
    labels: &[u32],
    names: &[u8],
    n: usize,
) -> usize
    requires relocs_low { RelocsLow n relocations.now }
    requires names_in_bounds { at + length (flat_map reloc_line (view_relocs n relocations.now labels.now names.now)) ≤ length out.old }
    ensures { Appended out.old out.new at result (flat_map reloc_line (view_relocs n relocations.now labels.now names.now)) }
{
    let mut end = at;
    for k in 0..n {
        end = put_relocation(out, end, relocations, labels, names, k);
    }
    end
}

// The lines of the first n blocks.
pub fn put_blocks(
    out: &mut [u8],
    at: usize,
    blocks: &[u16],
    n: usize,
    words: &[u16],
    marks: &[u8],
    w: usize,
) -> usize
    requires blocks_ok { BlocksOk n w blocks.now }
    requires words_ok { WordsOk w words.now marks.now }
    requires marks_in_bounds { at + length (flat_map block_lines (view_blocks n w blocks.now words.now marks.now)) ≤ length out.old }
    ensures { Appended out.old out.new at result (flat_map block_lines (view_blocks n w blocks.now words.now marks.now)) }
{
    let mut end = at;
    let mut first = 0;
    for k in 0..n {
        let i = k * BLOCK_CELLS;
        let start = blocks[i];
        let size = usize::from(blocks[i + BLOCK_LENGTH]);
        let stop = first + size;
        end = put_block(out, end, start, &words[first..stop], &marks[first..stop]);
        first = stop;
    }
    end
}

// How long the line of label row k is.
fn label_size(labels: &[u32], names: &[u8], k: usize) -> usize
    requires k_in_bounds { k * 4 + 4 ≤ length labels.now }
    requires k_len_bound { length (name_row labels.now names.now k) ≤ 64 }
    ensures { Sized result (label_line (label_row labels.now names.now k)) }
{
    let i = k * LABEL_CELLS;
    let name = object::label_name(labels, names, k);
    if labels[i + LABEL_FLAG] == DEFINED {
        return name.len() + LABEL_LINE_REST;
    }
    name.len() + EXTERNAL_LINE_REST
}

// How long the lines of the first n labels are.
pub fn labels_size(labels: &[u32], names: &[u8], n: usize) -> usize
    requires { LabelsOk n labels.now names.now }
    ensures { SizedAll 1024 result (flat_map label_line (view_labels n labels.now names.now)) }
{
    let mut size = 0;
    for k in 0..n {
        size += label_size(labels, names, k);
    }
    size
}

// How long the line of relocation row k is.
fn relocation_size(relocations: &[u32], labels: &[u32], names: &[u8], k: usize) -> usize
    requires k_in_bounds { k * 2 + 2 ≤ length relocations.now }
    requires k_len_bound { length (name_row labels.now names.now (get_or relocations.now (k * 2 + 1) 0)) ≤ 64 }
    ensures { Sized result (reloc_line (reloc_row relocations.now labels.now names.now k)) }
{
    let i = k * RELOCATION_CELLS;
    let row = relocations[i + RELOCATION_LABEL] as usize;
    let name = object::label_name(labels, names, row);
    name.len() + RELOCATION_LINE_REST
}

// How long the lines of the first n relocations are.
pub fn relocations_size(relocations: &[u32], labels: &[u32], names: &[u8], n: usize) -> usize
    requires { RelocsNamed n relocations.now labels.now names.now }
    ensures { SizedAll 1024 result (flat_map reloc_line (view_relocs n relocations.now labels.now names.now)) }
{
    let mut size = 0;
    for k in 0..n {
        size += relocation_size(relocations, labels, names, k);
    }
    size
}
