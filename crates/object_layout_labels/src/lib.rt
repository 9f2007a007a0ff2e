// Labels written in the one layout of an object: one behind another as it stands, or all rows with their names in upper case, zeros behind.
#![tactic(auto)]

ghost use Rattle.std.specs.Prelude.{◌≡◌, map, ◌+◌, ◌*◌, ◌≤◌, length, get_or};
ghost use Rattle.std.proofs.Math.Seq.{paste};
ghost use Rattle.rules.specs.Tokens.{upper};
ghost use Rattle.rules.specs.Buffers.{name_row};
ghost use Rattle.object.specs.Slots.{upper_name};
ghost use Rattle.object_layout_labels.specs.Laying.{Blank, row_cells, RowRoom, PutLabel, Layable, LabelRoom, upper_labels, LaidLabels};

use base_capacities::{LABEL_CELLS, LABEL_FLAG, NAME_LENGTH, NAME_START};

// The address that an external has in its row.
pub const NO_ADDRESS: u32 = 0;

// All of src in upper case, from index `at` of dst.
fn put_upper(dst: &mut [u8], at: usize, src: &[u8])
    requires { at + length src.now ≤ length dst.old }
    ensures { dst.new ≡ paste dst.old at (map upper src.now) (length (map upper src.now)) }
{
    for (i, b) in src.iter().enumerate() {
        dst[at + i] = base_text::upper_case(*b);
    }
}

// Row k: an address, a flag, where a name begins and how long it is.
fn put_row(labels: &mut [u32], k: usize, address: u32, flag: u32, at: usize, size: usize)
    requires { (k * 4 + 4 ≤ length labels.old) × (at + size ≤ 65536) }
    ensures { labels.new ≡ paste labels.old (k * 4) (row_cells address flag at size) 4 }
{
    let i = k * LABEL_CELLS;
    labels[i] = address;
    labels[i + LABEL_FLAG] = flag;
    labels[i + NAME_START] = at as u32;
    labels[i + NAME_LENGTH] = size as u32;
}

// The label of row k, whose name goes behind `at` name bytes as it stands; the place behind it.
pub fn put_label(
    labels: &mut [u32],
    names: &mut [u8],
    k: usize,
    at: usize,
    address: u32,
    flag: u32,
    name: &[u8],
) -> usize
    requires { RowRoom labels.old names.old k at name.now }
    ensures { PutLabel labels.old names.old labels.new names.new k at address flag name.now result }
{
    put_row(labels, k, address, flag, at, name.len());
    base_buffers::put_name(names, at, name);
    at + name.len()
}

// The same with the name in upper case.
fn put_upper_label(
    labels: &mut [u32],
    names: &mut [u8],
    k: usize,
    at: usize,
    address: u32,
    flag: u32,
    name: &[u8],
) -> usize
    requires { RowRoom labels.old names.old k at name.now }
    ensures { PutLabel labels.old names.old labels.new names.new k at address flag (map upper name.now) result }
{
    put_row(labels, k, address, flag, at, name.len());
    put_upper(names, at, name);
    at + name.len()
}

// Row k of `rows`, whose names stand in `bytes`, goes to row k.
fn lay_label(
    rows: &[u32],
    bytes: &[u8],
    k: usize,
    labels: &mut [u32],
    names: &mut [u8],
    at: usize,
) -> usize
    requires { (k * 4 + 4 ≤ length rows.now) × RowRoom labels.old names.old k at (name_row rows.now bytes.now k) }
    ensures { PutLabel labels.old names.old labels.new names.new k at (get_or rows.now (k * 4) 0) (get_or rows.now (k * 4 + 1) 0) (upper_name rows.now bytes.now k) result }
{
    let i = k * LABEL_CELLS;
    put_upper_label(
        labels,
        names,
        k,
        at,
        rows[i],
        rows[i + LABEL_FLAG],
        object::label_name(rows, bytes, k),
    )
}

// All n rows, into cleared buffers.
fn lay_rows(rows: &[u32], bytes: &[u8], n: usize, labels: &mut [u32], names: &mut [u8])
    requires { Layable rows.now bytes.now n × LabelRoom n labels.old names.old × Blank labels.old × Blank names.old }
    ensures { LaidLabels (upper_labels n rows.now bytes.now) labels.old names.old labels.new names.new }
{
    let mut at = 0;
    for k in 0..n {
        at = lay_label(rows, bytes, k, labels, names, at);
    }
}

// All n rows in the one layout, whatever stood there.
pub fn lay_labels(rows: &[u32], bytes: &[u8], n: usize, labels: &mut [u32], names: &mut [u8])
    requires { Layable rows.now bytes.now n × LabelRoom n labels.old names.old }
    ensures { LaidLabels (upper_labels n rows.now bytes.now) labels.old names.old labels.new names.new }
{
    base_buffers::clear(labels, 0);
    base_buffers::clear(names, 0);
    lay_rows(rows, bytes, n, labels, names);
}
