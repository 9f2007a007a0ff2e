// What a link notes for each label row of an object that goes into it: the name's row in the result and its address there.
#![tactic(auto)]

ghost use Rattle.std.specs.Prelude.{◌≡◌, ◌+◌, ◌*◌, ◌<◌, length};
ghost use Rattle.link_notes.specs.Notes.{note_row};

use base_capacities::{ADDRESSES, LABELS};

// Cells of a note: a row, an address.
const NOTE_CELLS: usize = 2;

const NOTE_ADDRESS: usize = 1;

// Cells of the notes of a full label table.
pub const NOTES: usize = LABELS * NOTE_CELLS;

// What stands for the address of a name that is external in the result.
pub const OPEN: u32 = ADDRESSES;

// The row that note k has.
pub fn row_at(notes: &[u32], k: usize) -> u32
    requires { k * 2 + 1 < length notes.now }
    ensures { result ≡ (note_row notes.now k).0 }
{
    notes[k * NOTE_CELLS]
}

// The address that note k has, or OPEN.
pub fn address_at(notes: &[u32], k: usize) -> u32
    requires { k * 2 + 1 < length notes.now }
    ensures { result ≡ (note_row notes.now k).1 }
{
    notes[k * NOTE_CELLS + NOTE_ADDRESS]
}
