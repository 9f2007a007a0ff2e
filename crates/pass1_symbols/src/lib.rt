// The symbol table while pass one fills it: rows as an object's labels, but with each name's place in the source, by name in upper case.
#![tactic(auto)]

ghost use Rattle.std.specs.Prelude.{◌≡◌, map, ◌+◌, ◌*◌, ◌/◌, ◌%◌, ◌≤◌, length, get_or};
ghost use Rattle.rules.specs.Tokens.{upper};
ghost use Rattle.rules.specs.Tables.{map_t};
ghost use Rattle.base_text.specs.Names.{ordered};
ghost use Rattle.base_keys.specs.Keys.{key_of};
ghost use Rattle.parse_labels.specs.Names.{name_from};
ghost use Rattle.object_layout_labels.specs.Laying.{LabelRoom, LaidLabels};
ghost use Rattle.object.specs.Slots.{upper_name, Slotted};
ghost use Rattle.pass1_symbols.specs.Symbols.{symbols, key_row, KeyedRow, Growing, InsertAt, Inserted};
ghost use Rattle.pass1_symbols.specs.Adding.{Found, Ready, Adding};

use std::cmp::Ordering;

// Behind the rows stand the keys of their names, each in two cells, the lower half first.
const KEYS: usize = base_capacities::PASS1_CELLS;

const KEY_CELLS: usize = 2;

// Cells of the table: rows and keys.
pub const SYMBOL_CELLS: usize = KEYS + base_capacities::LABELS * KEY_CELLS;

// How many values a cell has.
const CELL: u64 = 0x1_0000_0000;

// Why a name is not added at an address: row k has it at another; or no row is left.
#[derive(Clone, Copy)]
pub enum AddErr {
    Clash(usize),
    Full,
}

// The address of row k.
fn address_of(rows: &[u32], k: usize) -> u32
    requires { k * 4 + 4 ≤ length rows.now }
    ensures { result ≡ get_or rows.now (k * 4) 0 }
{
    let i = k * base_capacities::LABEL_CELLS;
    rows[i]
}

// The key of row k.
fn key_at(rows: &[u32], k: usize) -> u64
    requires { 4096 + k * 2 + 2 ≤ length rows.now }
    ensures { result ≡ key_row rows.now k }
{
    let i = KEYS + k * KEY_CELLS;
    u64::from(rows[i]) + u64::from(rows[i + 1]) * CELL
}

// The order of the name of row k and a name with its key: by their keys, and where these are the same by their bytes.
fn compare_keyed(rows: &[u32], src: &[u8], k: usize, name: &[u8], key: u64) -> Ordering
    requires { KeyedRow rows.now src.now k × (key ≡ key_of (map upper name.now)) }
    ensures { result ≡ ordered (upper_name rows.now src.now k) (map upper name.now) }
{
    let held = key_at(rows, k);
    if held < key {
        return Ordering::Less;
    }
    if key < held {
        return Ordering::Greater;
    }
    object::compare_row(rows, src, k, name)
}

// The row of a name with its key, or the row where it belongs, by halving.
fn slot_keyed(rows: &[u32], src: &[u8], n: usize, name: &[u8], key: u64) -> Result<usize, usize>
    requires { Growing rows.now src.now n × (key ≡ key_of (map upper name.now)) }
    ensures { Slotted rows.now src.now n (map upper name.now) result }
{
    let mut lo = 0;
    let mut hi = n;
    // A while: each turn halves what is left.
    while lo < hi {
        let mid = lo + (hi - lo) / 2;
        match compare_keyed(rows, src, mid, name, key) {
            Ordering::Less => {
                lo = mid + 1;
            }
            Ordering::Greater => {
                hi = mid;
            }
            Ordering::Equal => {
                return Ok(mid);
            }
        }
    }
    Err(lo)
}

// The key of the name at `start` of the source, `size` bytes long.
fn key_from(src: &[u8], start: u32, size: u32) -> u64
    requires { start + size ≤ length src.now }
    ensures { result ≡ key_of (name_from src.now start size) }
{
    let from = start as usize;
    let to = from + size as usize;
    base_keys::key_of(&src[from..to])
}

// The row of the name at `start` of the source, `size` bytes long, with its key, or the row where it belongs.
fn slot_at(
    rows: &[u32],
    src: &[u8],
    n: usize,
    start: u32,
    size: u32,
    key: u64,
) -> Result<usize, usize>
    requires { Growing rows.now src.now n × (start + size ≤ length src.now) × (key ≡ key_of (name_from src.now start size)) }
    ensures { Slotted rows.now src.now n (name_from src.now start size) result }
{
    let from = start as usize;
    let to = from + size as usize;
    slot_keyed(rows, src, n, &src[from..to], key)
}

// What the table says of the name at `start` of the source, `size` bytes long: the row that has it.
pub fn find_symbol(rows: &[u32], src: &[u8], n: usize, start: u32, size: u32) -> Option<usize>
    requires { Growing rows.now src.now n × (start + size ≤ length src.now) }
    ensures { Found n rows.now src.now (name_from src.now start size) result }
{
    let key = key_from(src, start, size);
    match slot_at(rows, src, n, start, size, key) {
        Ok(k) => Some(k),
        Err(_) => None,
    }
}

// The two halves of a key.
fn low_half(key: u64) -> u32
    ensures { result ≡ key % 4294967296 }
{
    (key % CELL) as u32
}

fn high_half(key: u64) -> u32
    ensures { result ≡ key / 4294967296 }
{
    (key / CELL) as u32
}

// A new symbol at its place p among the n rows, and the key of its name among the keys.
fn insert_symbol(
    rows: &mut [u32],
    src: &[u8],
    n: usize,
    p: usize,
    address: u32,
    flag: u32,
    start: u32,
    size: u32,
    key: u64,
)
    requires { InsertAt rows.old src.now n p address flag start size × (key ≡ key_of (name_from src.now start size)) }
    ensures { Inserted rows.old src.now rows.new n address flag start size }
{
    base_rows::insert(
        rows,
        n * base_capacities::LABEL_CELLS,
        p * base_capacities::LABEL_CELLS,
        &[address, flag, start, size],
    );
    base_rows::insert(
        rows,
        KEYS + n * KEY_CELLS,
        KEYS + p * KEY_CELLS,
        &[low_half(key), high_half(key)],
    );
}

// A name of the source at an address, as pass one meets it; the flag is 1 of an external, whose address is 0.
pub fn add_symbol(
    rows: &mut [u32],
    src: &[u8],
    n: usize,
    address: u32,
    flag: u32,
    start: u32,
    size: u32,
) -> Result<usize, AddErr>
    requires { Ready rows.old src.now n address flag start size }
    ensures { Adding rows.old src.now rows.new n address flag start size result }
{
    let key = key_from(src, start, size);
    match slot_at(rows, src, n, start, size, key) {
        Ok(k) => {
            let held = address_of(rows, k);
            if held == address {
                return Ok(n);
            }
            Err(AddErr::Clash(k))
        }
        Err(p) => {
            if base_capacities::LABELS <= n {
                return Err(AddErr::Full);
            }
            insert_symbol(rows, src, n, p, address, flag, start, size, key);
            Ok(n + 1)
        }
    }
}

// The table as an object's labels, in the one layout: names in upper case, one after another, in the order of the rows.
pub fn lay_symbols(rows: &[u32], src: &[u8], n: usize, labels: &mut [u32], names: &mut [u8])
    requires { Growing rows.now src.now n × LabelRoom n labels.old names.old }
    ensures { LaidLabels (map_t (λ m s. s.lab) (symbols n rows.now src.now)) labels.old names.old labels.new names.new }
{
    object_layout_labels::lay_labels(rows, src, n, labels, names);
}
