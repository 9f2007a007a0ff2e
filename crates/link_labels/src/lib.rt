// The labels of two objects: matched by name, with a note for each row of either, and then written as one table.
#![tactic(auto)]

ghost use Rattle.std.specs.Prelude.{◌≡◌, ◌+◌, ◌*◌, ◌≤◌, ◌<◌, length, get_or};
ghost use Rattle.std.proofs.Math.Option.{some};
ghost use Rattle.rules.specs.Objects.{address_of};
ghost use Rattle.rules.specs.Buffers.{flag_of, name_row, lab_row};
ghost use Rattle.base_buffers.specs.Rows.{with_row};
ghost use Rattle.object_layout_labels.specs.Laying.{Blank, PutLabel, LaidLabels};
ghost use Rattle.link_notes.specs.Notes.{address_in};
ghost use Rattle.link_labels.specs.Matching.{both_labels, RowIn, joined_as, Sided, MatchReady, Matches};
ghost use Rattle.link_labels.specs.Laying.{due, side_of, noted_lab, NotedRoom, LayReady};

use base_capacities::{DEFINED, EXTERNAL, LABEL_ADDRESS, LABEL_CELLS, LABEL_FLAG};
use link_notes::OPEN;
use object_layout_labels::{NO_ADDRESS, put_label};
use std::cmp::Ordering;

// Which object has the next row of the result.
#[derive(Clone, Copy)]
enum Side {
    First,
    Second,
    Both,
    Over,
}

// The address of label row k, or OPEN.
fn open_address(labels: &[u32], k: usize) -> u32
    requires { k * 4 + 4 ≤ length labels.now }
    ensures { result ≡ address_in (some (lab_row labels.now k)) }
{
    let i = k * LABEL_CELLS;
    if labels[i + LABEL_FLAG] == DEFINED {
        return labels[i + LABEL_ADDRESS];
    }
    OPEN
}

// What row i of the first object and row j of the second, which have one name, become: an address or OPEN; nothing where both are defined, at different addresses.
fn join_rows(labels1: &[u32], i: usize, labels2: &[u32], j: usize) -> Option<u32>
    requires { RowIn labels1.now i × RowIn labels2.now j }
    ensures { result ≡ joined_as (lab_row labels1.now i) (lab_row labels2.now j) }
{
    let x = open_address(labels1, i);
    let y = open_address(labels2, j);
    if x == OPEN {
        return Some(y);
    }
    if y == OPEN {
        return Some(x);
    }
    if x == y {
        return Some(x);
    }
    None
}

// Which object has the next row, by names, when i rows of the one and j of the other are out.
fn next_side(
    labels1: &[u32],
    names1: &[u8],
    m: usize,
    i: usize,
    labels2: &[u32],
    names2: &[u8],
    n: usize,
    j: usize,
) -> Side
    ensures { Sided m labels1.now names1.now n labels2.now names2.now i j result }
{
    if m <= i {
        if n <= j {
            return Side::Over;
        }
        return Side::Second;
    }
    if n <= j {
        return Side::First;
    }
    let order = base_text::compare_bytes(
        object::label_name(labels1, names1, i),
        object::label_name(labels2, names2, j),
    );
    match order {
        Ordering::Less => Side::First,
        Ordering::Greater => Side::Second,
        Ordering::Equal => Side::Both,
    }
}

// Note i: row k of the result, and an address.
fn note(notes: &mut [u32], i: usize, k: usize, address: u32)
    requires { (i * 2 + 1 < length notes.old) × (k ≤ 262144) }
    ensures { notes.new ≡ with_row notes.old i k address }
{
    base_buffers::row(notes, i, k as u32, address);
}

// The note of row i, whose name the other object does not have.
fn note_own(labels: &[u32], i: usize, notes: &mut [u32], k: usize)
    requires { (i * 4 + 4 ≤ length labels.now) × (i * 2 + 1 < length notes.old) × (k ≤ 262144) }
    ensures { notes.new ≡ with_row notes.old i k (address_in (some (lab_row labels.now i))) }
{
    note(notes, i, k, open_address(labels, i));
}

// The rows of both objects in order of their names, each noted with its row in the result and its address there: how many rows the result has; or the first object's first row whose name the second
// defines at another address.
pub fn match_labels(
    labels1: &[u32],
    names1: &[u8],
    m: usize,
    labels2: &[u32],
    names2: &[u8],
    n: usize,
    notes1: &mut [u32],
    notes2: &mut [u32],
) -> Result<usize, usize>
    requires { MatchReady m labels1.now names1.now n labels2.now names2.now notes1.old notes2.old }
    ensures { Matches m labels1.now names1.now n labels2.now names2.now result notes1.new notes2.new }
{
    let mut i = 0;
    let mut j = 0;
    let mut k = 0;
    // A loop: each turn passes a row of the one object, of the other or of both.
    loop {
        match next_side(labels1, names1, m, i, labels2, names2, n, j) {
            Side::Over => {
                return Ok(k);
            }
            Side::First => {
                note_own(labels1, i, notes1, k);
                i += 1;
                k += 1;
            }
            Side::Second => {
                note_own(labels2, j, notes2, k);
                j += 1;
                k += 1;
            }
            Side::Both => match join_rows(labels1, i, labels2, j) {
                None => {
                    return Err(i);
                }
                Some(address) => {
                    note(notes1, i, k, address);
                    note(notes2, j, k, address);
                    i += 1;
                    j += 1;
                    k += 1;
                }
            },
        }
    }
}

// There is a row i of n, and it is noted as row k of the result.
fn is_due(notes: &[u32], n: usize, i: usize, k: usize) -> bool
    requires { n * 2 ≤ length notes.now }
    ensures { result ≡ due n notes.now i k }
{
    if n <= i {
        return false;
    }
    link_notes::row_at(notes, i) as usize == k
}

// Whose row is row k of the result, by notes, when i rows of the one and j of the other are out.
fn next_due(
    notes1: &[u32],
    m: usize,
    i: usize,
    notes2: &[u32],
    n: usize,
    j: usize,
    k: usize,
) -> Side
    requires { (m * 2 ≤ length notes1.now) × (n * 2 ≤ length notes2.now) }
    ensures { result ≡ side_of (due m notes1.now i k) (due n notes2.now j k) }
{
    let first = is_due(notes1, m, i, k);
    let second = is_due(notes2, n, j, k);
    if first {
        if second {
            return Side::Both;
        }
        return Side::First;
    }
    if second {
        return Side::Second;
    }
    Side::Over
}

// Row i of `rows`, whose names stand in `bytes`, goes to row k, as its note says.
fn lay_noted(
    rows: &[u32],
    bytes: &[u8],
    notes: &[u32],
    i: usize,
    labels: &mut [u32],
    names: &mut [u8],
    k: usize,
    at: usize,
) -> usize
    requires { NotedRoom rows.now bytes.now notes.now i labels.old names.old k at }
    ensures { PutLabel labels.old names.old labels.new names.new k at (address_of (noted_lab (get_or notes.now (i * 2 + 1) 0))) (flag_of (noted_lab (get_or notes.now (i * 2 + 1) 0))) (name_row rows.now bytes.now i) result }
{
    let address = link_notes::address_at(notes, i);
    let name = object::label_name(rows, bytes, i);
    if address == OPEN {
        return put_label(labels, names, k, at, NO_ADDRESS, EXTERNAL, name);
    }
    put_label(labels, names, k, at, address, DEFINED, name)
}

// The labels of both objects, each name once, into cleared buffers.
fn lay_rows(
    labels1: &[u32],
    names1: &[u8],
    m: usize,
    notes1: &[u32],
    labels2: &[u32],
    names2: &[u8],
    n: usize,
    notes2: &[u32],
    labels: &mut [u32],
    names: &mut [u8],
)
    requires { LayReady m labels1.now names1.now notes1.now n labels2.now names2.now notes2.now labels.old names.old × Blank labels.old × Blank names.old }
    ensures { LaidLabels (both_labels m labels1.now names1.now n labels2.now names2.now) labels.old names.old labels.new names.new }
{
    let mut i = 0;
    let mut j = 0;
    let mut k = 0;
    let mut at = 0;
    // A loop: each turn passes a row of the one object, of the other or of both.
    loop {
        match next_due(notes1, m, i, notes2, n, j, k) {
            Side::Over => {
                return;
            }
            Side::First => {
                at = lay_noted(labels1, names1, notes1, i, labels, names, k, at);
                i += 1;
                k += 1;
            }
            Side::Second => {
                at = lay_noted(labels2, names2, notes2, j, labels, names, k, at);
                j += 1;
                k += 1;
            }
            Side::Both => {
                at = lay_noted(labels1, names1, notes1, i, labels, names, k, at);
                i += 1;
                j += 1;
                k += 1;
            }
        }
    }
}

// The labels of both objects in the one layout, whatever stood there. The names are in order already: the notes say which comes next.
pub fn lay_labels(
    labels1: &[u32],
    names1: &[u8],
    m: usize,
    notes1: &[u32],
    labels2: &[u32],
    names2: &[u8],
    n: usize,
    notes2: &[u32],
    labels: &mut [u32],
    names: &mut [u8],
)
    requires { LayReady m labels1.now names1.now notes1.now n labels2.now names2.now notes2.now labels.old names.old }
    ensures { LaidLabels (both_labels m labels1.now names1.now n labels2.now names2.now) labels.old names.old labels.new names.new }
{
    base_buffers::clear(labels, 0);
    base_buffers::clear(names, 0);
    lay_rows(
        labels1, names1, m, notes1, labels2, names2, n, notes2, labels, names,
    );
}
