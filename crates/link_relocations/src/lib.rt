// The relocations of two objects that stay open in their link: counted, and merged into one table.
#![tactic(auto)]

ghost use Rattle.std.specs.Prelude.{◌≡◌, ◌+◌, ◌*◌, ◌≤◌, ◌<◌, length, get_or};
ghost use Rattle.rules.specs.Buffers.{lay};
ghost use Rattle.object.specs.Decides.{Decides};
ghost use Rattle.object_layout_labels.specs.Laying.{Blank};
ghost use Rattle.link_notes.specs.Notes.{carried, carried_rows};
ghost use Rattle.link_relocations.specs.Open.{is_open, open_rows, both_rows, row_cells, put_open, row_after, Carried, Both, Placed, Next};

use base_capacities::{RELOCATION_CELLS, RELOCATION_LABEL};

// The label row of relocation k.
fn label_row(relocations: &[u32], k: usize) -> usize
    requires { k * 2 + 1 < length relocations.now }
    ensures { result ≡ get_or relocations.now (k * 2 + 1) 0 }
{
    relocations[k * RELOCATION_CELLS + RELOCATION_LABEL] as usize
}

// Relocation k stays open.
fn is_open(relocations: &[u32], notes: &[u32], k: usize) -> bool
    requires { (k * 2 + 1 < length relocations.now) × (get_or relocations.now (k * 2 + 1) 0 * 2 + 1 < length notes.now) }
    ensures { result ≡ is_open (carried relocations.now notes.now k).1 }
{
    link_notes::address_at(notes, label_row(relocations, k)) == link_notes::OPEN
}

// How many of n relocations stay open.
pub fn count_open(relocations: &[u32], n: usize, notes: &[u32]) -> usize
    requires { Carried n relocations.now notes.now }
    ensures value { result ≡ length (open_rows (carried_rows n relocations.now notes.now)) }
    ensures upper_bound { result ≤ n }
{
    let mut count = 0;
    for k in 0..n {
        if is_open(relocations, notes, k) {
            count += 1;
        }
    }
    count
}

// Relocation i, if it stays open, as row k of a table; the row after it.
fn put_open(relocations: &[u32], notes: &[u32], i: usize, out: &mut [u32], k: usize) -> usize
    requires { Placed relocations.now notes.now i out.old k }
    ensures value { result ≡ row_after (carried relocations.now notes.now i) k }
    ensures out_after { out.new ≡ put_open (carried relocations.now notes.now i) k out.old }
{
    if is_open(relocations, notes, i) {
        let row = link_notes::row_at(notes, label_row(relocations, i));
        base_buffers::row(out, k, relocations[i * RELOCATION_CELLS], row);
        return k + 1;
    }
    k
}

// The next relocation by address is the first table's.
fn first_is_next(a: &[u32], n: usize, i: usize, b: &[u32], m: usize, j: usize) -> bool
    requires { (n * 2 ≤ length a.now) × (m * 2 ≤ length b.now) }
    ensures { Decides (Next n a.now i m b.now j) result }
{
    if n <= i {
        return false;
    }
    if m <= j {
        return true;
    }
    a[i * RELOCATION_CELLS] < b[j * RELOCATION_CELLS]
}

// Both tables in one by address, without the relocations that are resolved, into a cleared table.
fn merge_rows(
    a: &[u32],
    n: usize,
    a_notes: &[u32],
    b: &[u32],
    m: usize,
    b_notes: &[u32],
    out: &mut [u32],
)
    requires { Both n a.now a_notes.now m b.now b_notes.now out.old × Blank out.old }
    ensures { out.new ≡ lay (row_cells (open_rows (both_rows n a.now a_notes.now m b.now b_notes.now))) (length out.old) }
{
    let mut i = 0;
    let mut j = 0;
    let mut k = 0;
    // A while: each turn passes a row of the one table or of the other.
    while i + j < n + m {
        if first_is_next(a, n, i, b, m, j) {
            k = put_open(a, a_notes, i, out, k);
            i += 1;
        } else {
            k = put_open(b, b_notes, j, out, k);
            j += 1;
        }
    }
}

// Both tables in one by address, without the relocations that are resolved, whatever stood there.
pub fn merge_relocations(
    a: &[u32],
    n: usize,
    a_notes: &[u32],
    b: &[u32],
    m: usize,
    b_notes: &[u32],
    out: &mut [u32],
)
    requires { Both n a.now a_notes.now m b.now b_notes.now out.old }
    ensures { out.new ≡ lay (row_cells (open_rows (both_rows n a.now a_notes.now m b.now b_notes.now))) (length out.old) }
{
    base_buffers::clear(out, 0);
    merge_rows(a, n, a_notes, b, m, b_notes, out);
}
