// What a relocation asks of the fields before it: the word at its address, found by walking on through the runs, and the row of its name, found by halving.
#![tactic(auto)]

ghost use Rattle.std.specs.Prelude.{◌≡◌, true, ℕ, ◌+◌, ◌≤◌, length, Some};
ghost use Rattle.rules.specs.Objects.{Name, Lab};
ghost use Rattle.rules.specs.Stored.{State};
ghost use Rattle.laws_stored.specs.Offsets.{number_at};
ghost use Rattle.stored_seek.specs.Seeking.{Seeker, Seeks, Paces, LabelAt, Listed, ListedIn, row_told};

use std::cmp::Ordering;
use stored_fields::{BLOCK, DEFINED_LABEL, EXTERNAL_LABEL, NUMBER_BYTES, SET_WORDS, UNSET_WORDS};
use stored_read::Field;

// Where a search for a word stopped: at the field of its run, whose first word has that address; and whether the word is set and 0.
#[derive(Clone, Copy)]
pub struct Sought {
    pub seen: usize,
    pub address: usize,
    pub zero: bool,
}

// What one field tells the search: it goes on behind the field, where words begin at that address; or it ends there, and the word is set and 0, or not.
#[derive(Clone, Copy)]
enum Pace {
    Past { next: usize, address: usize },
    Here(bool),
}

// The number at a place; 0 where the bytes end before it is whole.
fn number_from(bytes: &[u8], at: usize) -> usize
    ensures { at + 2 ≤ length bytes.now → result ≡ number_at bytes.now at }
{
    let size = bytes.len();
    if size <= at {
        return 0;
    }
    if size - at < NUMBER_BYTES {
        return 0;
    }
    usize::from(stored_read::number_at(bytes, at))
}

// One field of the search for the word at an address, where words begin at `here`.
fn seek_in_field(bytes: &[u8], at: usize, here: usize, wanted: usize) -> Pace
    ensures { Paces bytes.now at here wanted result }
{
    if wanted < here {
        return Pace::Here(false);
    }
    match stored_read::field_at(bytes, at) {
        Field::Over => Pace::Here(false),
        Field::CutShort => Pace::Here(false),
        Field::Found { tag, start, end } => {
            if tag == BLOCK {
                return Pace::Past {
                    next: end,
                    address: number_from(bytes, start),
                };
            }
            let k = wanted - here;
            if tag == SET_WORDS {
                let size = (end - start) / NUMBER_BYTES;
                if k < size {
                    return Pace::Here(stored_read::number_at(bytes, start + k * NUMBER_BYTES) == 0);
                }
                return Pace::Past {
                    next: end,
                    address: here + size,
                };
            }
            if tag == UNSET_WORDS {
                let size = number_from(bytes, start);
                if k < size {
                    return Pace::Here(false);
                }
                return Pace::Past {
                    next: end,
                    address: here + size,
                };
            }
            Pace::Past {
                next: end,
                address: here,
            }
        }
    }
}

// The word at the address `wanted`, looked for from the field at `seen` up to `end`; words begin at `address`.
pub fn seek_word(bytes: &[u8], end: usize, seen: usize, address: usize, wanted: usize) -> Sought
    ensures { (s : State) (least : ℕ) → Seeker bytes.now s end seen address least wanted → Seeks s wanted result }
{
    let mut at = seen;
    let mut here = address;
    // A while: each turn passes one field, and the field says where the next begins.
    while at < end {
        match seek_in_field(bytes, at, here, wanted) {
            Pace::Past { next, address } => {
                at = next;
                here = address;
            }
            Pace::Here(zero) => {
                return Sought {
                    seen: at,
                    address: here,
                    zero,
                };
            }
        }
    }
    Sought {
        seen: at,
        address: here,
        zero: false,
    }
}

// The name in the field of a label.
pub fn label_name(bytes: &[u8], at: usize) -> &[u8]
    ensures { (e : Name × Lab) → LabelAt bytes.now at e → result.now ≡ e.0 }
{
    match stored_read::field_at(bytes, at) {
        Field::Over => stored_read::part_of(bytes, 0, 0),
        Field::CutShort => stored_read::part_of(bytes, 0, 0),
        Field::Found { tag, start, end } => {
            if tag == DEFINED_LABEL {
                return stored_read::part_of(bytes, start + NUMBER_BYTES, end);
            }
            stored_read::part_of(bytes, start, end)
        }
    }
}

// The row of a name among the n labels whose fields stand at the places, if it is an external's, by halving.
pub fn seek_external(bytes: &[u8], places: &[usize], n: usize, name: &[u8]) -> Option<usize>
    requires { ListedIn bytes.now places.now n }
    ensures { (s : State) (end : ℕ) → Listed bytes.now places.now n s end → result ≡ row_told s.labels name.now }
{
    let mut low = 0;
    let mut high = n;
    // A while: each turn halves what is left.
    while low < high {
        let middle = low + (high - low) / 2;
        let at = places[middle];
        match base_text::compare_bytes(label_name(bytes, at), name) {
            Ordering::Less => {
                low = middle + 1;
            }
            Ordering::Greater => {
                high = middle;
            }
            Ordering::Equal => {
                if bytes[at] == EXTERNAL_LABEL {
                    return Some(middle);
                }
                return None;
            }
        }
    }
    None
}

// Row k is that of an external with this name.
fn is_external(bytes: &[u8], places: &[usize], n: usize, k: usize, name: &[u8]) -> bool
    requires { ListedIn bytes.now places.now n }
    ensures { (s : State) (end : ℕ) → Listed bytes.now places.now n s end → result ≡ true → Some k ≡ row_told s.labels name.now }
{
    if n <= k {
        return false;
    }
    let at = places[k];
    let order = base_text::compare_bytes(label_name(bytes, at), name);
    matches!(order, Ordering::Equal) && bytes[at] == EXTERNAL_LABEL
}

// The same as seek_external. The row behind the last one that was found is looked at first, since relocations often follow one another as their labels do.
pub fn seek_near(
    bytes: &[u8],
    places: &[usize],
    n: usize,
    last: usize,
    name: &[u8],
) -> Option<usize>
    requires { ListedIn bytes.now places.now n }
    ensures { (s : State) (end : ℕ) → Listed bytes.now places.now n s end → result ≡ row_told s.labels name.now }
{
    if last < n && is_external(bytes, places, n, last + 1, name) {
        return Some(last + 1);
    }
    seek_external(bytes, places, n, name)
}
