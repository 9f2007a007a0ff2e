// What 43 demands of an object's labels.
#![tactic(auto)]

ghost use Rattle.std.specs.Prelude.{◌≡◌, ◌+◌, ◌*◌, ◌≤◌, ◌<◌, length};
ghost use Rattle.rules.specs.Tables.{Before};
ghost use Rattle.rules.specs.Buffers.{LabelRow, LabelsOk};
ghost use Rattle.object.specs.Decides.{Decides};
ghost use Rattle.object_check_labels.specs.Follows.{Flagged, RowsTo, Follows};
ghost use Rattle.object_names.specs.Plain.{CapitalFront};

use base_capacities::{
    ADDRESSES, DEFINED, EXTERNAL, LABEL_CELLS, LABEL_FLAG, LABELS, NAME_LENGTH, NAME_START,
};
use base_text::{KEY_BYTES, key_at};
use std::cmp::Ordering;

// The last address that there is.
const LAST_ADDRESS: u32 = ADDRESSES - 1;

// An address of two bytes, and a flag that is 0, or 1 beside the address 0.
fn check_flag(address: u32, flag: u32) -> bool
    ensures { Decides (Flagged address flag) result }
{
    address <= LAST_ADDRESS && (flag == DEFINED || (flag == EXTERNAL && address == 0))
}

// The rules of one row. The first `front` name bytes are capital letters, digits and underscores, and are not looked at again.
fn check_label(labels: &[u32], names: &[u8], k: usize, front: usize) -> bool
    requires { (k * 4 + 4 ≤ length labels.now) × CapitalFront names.now front }
    ensures { Decides (LabelRow labels.now names.now k) result }
{
    let i = k * LABEL_CELLS;
    if !check_flag(labels[i], labels[i + LABEL_FLAG]) {
        return false;
    }
    let start = labels[i + NAME_START] as usize;
    let end = start + labels[i + NAME_LENGTH] as usize;
    if end <= front {
        return object_names::is_capital_label(&names[start..end]);
    }
    end <= names.len() && object_names::is_label(&names[start..end])
}

// A name goes before another.
fn is_before(a: &[u8], b: &[u8]) -> bool
    ensures { Decides (Before a.now b.now) result }
{
    match base_text::compare_bytes(a, b) {
        Ordering::Less => true,
        Ordering::Equal => false,
        Ordering::Greater => false,
    }
}

// The same, by the first eight bytes if they tell it.
fn goes_before(a: &[u8], b: &[u8]) -> bool
    ensures { Decides (Before a.now b.now) result }
{
    if a.len() < KEY_BYTES || b.len() < KEY_BYTES {
        return is_before(a, b);
    }
    let x = key_at(a, 0);
    let y = key_at(b, 0);
    if x < y {
        return true;
    }
    is_before(a, b)
}

// The name of row k is above that of the row before, where both rows keep the rules.
fn follows(labels: &[u32], names: &[u8], k: usize) -> bool
    requires { (k * 4 + 4 ≤ length labels.now) × RowsTo labels.now names.now (k + 1) }
    ensures { Decides (Follows labels.now names.now k) result }
{
    if k == 0 {
        return true;
    }
    let before = object::name_of(labels, names, k - 1);
    let name = object::name_of(labels, names, k);
    goes_before(before, name)
}

// The n label rows rise by name, and each keeps the rules of a row.
pub fn check_labels(labels: &[u32], names: &[u8], n: usize) -> bool
    ensures { Decides (LabelsOk n labels.now names.now) result }
{
    if LABELS < n {
        return false;
    }
    if labels.len() < n * LABEL_CELLS {
        return false;
    }
    let front = object_names::capital_front(names);
    for k in 0..n {
        if !check_label(labels, names, k, front) {
            return false;
        }
        if !follows(labels, names, k) {
            return false;
        }
    }
    true
}
