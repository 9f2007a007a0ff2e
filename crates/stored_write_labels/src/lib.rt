// Labels and relocations as stored bytes, and how many bytes that is.
#![tactic(auto)]

ghost use Rattle.std.specs.Prelude.{◌≡◌, ◌+◌, ◌*◌, ◌≤◌, ◌<◌, length, get_or};
ghost use Rattle.rules.specs.Buffers.{LabelsOk, name_row, label_row, reloc_row};
ghost use Rattle.list_lines.specs.Appended.{Appended};
ghost use Rattle.list_sections.specs.Low.{RelocsLow, RelocsNamed};
ghost use Rattle.stored_write_labels.specs.Tables.{label_field, reloc_field, label_bytes, reloc_bytes, label_size, FieldSized, FieldsSized};

use base_capacities::{
    DEFINED, LABEL_CELLS, LABEL_FLAG, NAME_LENGTH, RELOCATION_CELLS, RELOCATION_LABEL,
};
use stored_fields::{DEFINED_LABEL, EXTERNAL_LABEL, HEAD_BYTES, NUMBER_BYTES, RELOCATION};

// The field of label row k.
fn put_label(out: &mut [u8], at: usize, labels: &[u32], names: &[u8], k: usize) -> usize
    requires k_in_bounds { k * 4 + 4 ≤ length labels.now }
    requires k_bound { get_or labels.now (k * 4) 0 < 65536 }
    requires k_in_bounds_2 { get_or labels.now (k * 4 + 2) 0 + get_or labels.now (k * 4 + 3) 0 ≤ length names.now }
    requires k_len_bound { length (name_row labels.now names.now k) ≤ 64 }
    requires k_in_bounds_3 { at + length (label_field (label_row labels.now names.now k)) ≤ length out.old }
    ensures { Appended out.old out.new at result (label_field (label_row labels.now names.now k)) }
{
    let i = k * LABEL_CELLS;
    let name = object::name_of(labels, names, k);
    if labels[i + LABEL_FLAG] == DEFINED {
        let address = labels[i] as u16;
        return stored_fields::put_addressed(out, at, DEFINED_LABEL, address, name);
    }
    stored_fields::put_named(out, at, EXTERNAL_LABEL, name)
}

// The fields of the first n labels.
pub fn put_labels(out: &mut [u8], at: usize, labels: &[u32], names: &[u8], n: usize) -> usize
    requires labels_ok { LabelsOk n labels.now names.now }
    requires names_in_bounds { at + length (label_bytes n labels.now names.now) ≤ length out.old }
    ensures { Appended out.old out.new at result (label_bytes n labels.now names.now) }
{
    let mut end = at;
    for k in 0..n {
        end = put_label(out, end, labels, names, k);
    }
    end
}

// The field of relocation row k.
fn put_relocation(
    out: &mut [u8],
    at: usize,
    relocations: &[u32],
    labels: &[u32],
    names: &[u8],
    k: usize,
) -> usize
    requires k_in_bounds { k * 2 + 2 ≤ length relocations.now }
    requires k_bound { get_or relocations.now (k * 2) 0 < 65536 }
    requires k_len_bound { length (name_row labels.now names.now (get_or relocations.now (k * 2 + 1) 0)) ≤ 64 }
    requires k_in_bounds_2 { at + length (reloc_field (reloc_row relocations.now labels.now names.now k)) ≤ length out.old }
    ensures { Appended out.old out.new at result (reloc_field (reloc_row relocations.now labels.now names.now k)) }
{
    let i = k * RELOCATION_CELLS;
    let row = relocations[i + RELOCATION_LABEL] as usize;
    let name = object::label_name(labels, names, row);
    let address = relocations[i] as u16;
    stored_fields::put_addressed(out, at, RELOCATION, address, name)
}

// The fields of the first n relocations.
pub fn put_relocations(
    out: &mut [u8],
    at: usize,
    relocations: &[u32],
    labels: &[u32],
    names: &[u8],
    n: usize,
) -> usize
    requires relocs_low { RelocsLow n relocations.now }
    requires relocs_named { RelocsNamed n relocations.now labels.now names.now }
    requires names_in_bounds { at + length (reloc_bytes n relocations.now labels.now names.now) ≤ length out.old }
    ensures { Appended out.old out.new at result (reloc_bytes n relocations.now labels.now names.now) }
{
    let mut end = at;
    for k in 0..n {
        end = put_relocation(out, end, relocations, labels, names, k);
    }
    end
}

// How many bytes the field of a label has, by its flag and the length of its name.
fn label_size(flag: u32, name: u32) -> usize
    requires { name ≤ 64 }
    ensures { result ≡ label_size flag name }
{
    if flag == DEFINED {
        return HEAD_BYTES + NUMBER_BYTES + name as usize;
    }
    HEAD_BYTES + name as usize
}

// How many bytes the fields of the first n labels have. The names are not looked at, and the loop has no exit, so that many rows are added up at once.
pub fn labels_size(labels: &[u32], names: &[u8], n: usize) -> usize
    requires { LabelsOk n labels.now names.now }
    ensures { FieldsSized 1024 result (label_bytes n labels.now names.now) }
{
    let mut size = 0;
    for k in 0..n {
        let i = k * LABEL_CELLS;
        size += label_size(labels[i + LABEL_FLAG], labels[i + NAME_LENGTH]);
    }
    size
}

// How many bytes the field of relocation row k has.
fn relocation_size(relocations: &[u32], labels: &[u32], names: &[u8], k: usize) -> usize
    requires k_in_bounds { k * 2 + 2 ≤ length relocations.now }
    requires k_len_bound { length (name_row labels.now names.now (get_or relocations.now (k * 2 + 1) 0)) ≤ 64 }
    ensures { FieldSized result (reloc_field (reloc_row relocations.now labels.now names.now k)) }
{
    let i = k * RELOCATION_CELLS;
    let label = relocations[i + RELOCATION_LABEL] as usize;
    let name = object::label_name(labels, names, label);
    HEAD_BYTES + NUMBER_BYTES + name.len()
}

// How many bytes the fields of the first n relocations have.
pub fn relocations_size(relocations: &[u32], labels: &[u32], names: &[u8], n: usize) -> usize
    requires { RelocsNamed n relocations.now labels.now names.now }
    ensures { FieldsSized 1024 result (reloc_bytes n relocations.now labels.now names.now) }
{
    let mut size = 0;
    for k in 0..n {
        size += relocation_size(relocations, labels, names, k);
    }
    size
}
