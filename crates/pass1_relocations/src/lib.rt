// The relocations while pass one finds them: rows of address, 0, and the name's start and length in the source, by address.
#![tactic(auto)]

ghost use Rattle.std.specs.Prelude.{◌≡◌, ◌+◌, ◌*◌, ◌≤◌, ◌<◌, length, get_or, set};
ghost use Rattle.rules.specs.Buffers.{lay, row_of, reloc_cells};
ghost use Rattle.object.specs.Decides.{Decides};
ghost use Rattle.object_layout_labels.specs.Laying.{Blank};
ghost use Rattle.pass1_relocations.specs.Pending.{note_row, notes, Pending, Bound, AtAddress, Ready, Adding};
ghost use Rattle.pass1_relocations.specs.Resolved.{labels_of, Resolved};

// The address of row k.
fn address_of(rows: &[u32], k: usize) -> u32
    requires { k * 4 + 4 ≤ length rows.now }
    ensures { result ≡ get_or rows.now (k * 4) 0 }
{
    let i = k * base_capacities::LABEL_CELLS;
    rows[i]
}

// The first of n rows whose address is not below an address, by halving.
fn row_from(rows: &[u32], src: &[u8], n: usize, address: u32) -> usize
    requires { Pending rows.now src.now n }
    ensures { Bound rows.now n address result }
{
    let mut lo = 0;
    let mut hi = n;
    // A while: each turn halves what is left.
    while lo < hi {
        let mid = lo + (hi - lo) / 2;
        if address_of(rows, mid) < address {
            lo = mid + 1;
        } else {
            hi = mid;
        }
    }
    lo
}

// Row k is one of the n rows, and at the address.
fn is_at(rows: &[u32], n: usize, k: usize, address: u32) -> bool
    requires { n * 4 ≤ length rows.now }
    ensures { Decides (AtAddress rows.now n k address) result }
{
    k < n && address_of(rows, k) == address
}

// Row k has another name.
fn rename(rows: &mut [u32], k: usize, start: u32, size: u32)
    requires { k * 4 + 4 ≤ length rows.old }
    ensures { rows.new ≡ set (set rows.old (k * 4 + 2) start) (k * 4 + 3) size }
{
    let i = k * base_capacities::LABEL_CELLS;
    rows[i + base_capacities::NAME_START] = start;
    rows[i + base_capacities::NAME_LENGTH] = size;
}

// A relocation at an address, to the name at `start` of the source: the newer of two at one address stays.
pub fn add_relocation(
    rows: &mut [u32],
    src: &[u8],
    n: usize,
    address: u32,
    start: u32,
    size: u32,
) -> Option<usize>
    requires { Ready rows.old src.now n start size }
    ensures { Adding rows.old src.now rows.new n address start size result }
{
    let p = row_from(rows, src, n, address);
    if is_at(rows, n, p, address) {
        rename(rows, p, start, size);
        return Some(n);
    }
    if base_capacities::RELOCATIONS <= n {
        return None;
    }
    base_rows::insert(
        rows,
        n * base_capacities::LABEL_CELLS,
        p * base_capacities::LABEL_CELLS,
        &[address, 0, start, size],
    );
    Some(n + 1)
}

// The row of the label that row k names, among m symbols that have it.
fn label_row(rows: &[u32], src: &[u8], n: usize, k: usize, symbols: &[u32], m: usize) -> u32
    requires { Resolved rows.now src.now n symbols.now m × (k < n) }
    ensures { result ≡ row_of (labels_of m symbols.now src.now) (note_row rows.now src.now k).1 }
{
    let i = k * base_capacities::LABEL_CELLS;
    match pass1_symbols::find_symbol(
        symbols,
        src,
        m,
        rows[i + base_capacities::NAME_START],
        rows[i + base_capacities::NAME_LENGTH],
    ) {
        Some(j) => j as u32,
        None => 0,
    }
}

// All n rows as an object's relocations, into a cleared table.
fn lay_rows(rows: &[u32], src: &[u8], n: usize, symbols: &[u32], m: usize, relocations: &mut [u32])
    requires { Resolved rows.now src.now n symbols.now m × (n * 2 ≤ length relocations.old) × Blank relocations.old }
    ensures { relocations.new ≡ lay (reloc_cells (labels_of m symbols.now src.now) (notes n rows.now src.now)) (length relocations.old) }
{
    for k in 0..n {
        let address = address_of(rows, k);
        let row = label_row(rows, src, n, k, symbols, m);
        base_buffers::row(relocations, k, address, row);
    }
}

// All n rows as an object's relocations, in the one layout, whatever stood there.
pub fn lay_relocations(
    rows: &[u32],
    src: &[u8],
    n: usize,
    symbols: &[u32],
    m: usize,
    relocations: &mut [u32],
)
    requires { Resolved rows.now src.now n symbols.now m × (n * 2 ≤ length relocations.old) }
    ensures { relocations.new ≡ lay (reloc_cells (labels_of m symbols.now src.now) (notes n rows.now src.now)) (length relocations.old) }
{
    base_buffers::clear(relocations, 0);
    lay_rows(rows, src, n, symbols, m, relocations);
}
