// The words of a link's blocks settled: each relocation to a name that the result defines has that address written as its word.
#![tactic(auto)]

ghost use Rattle.std.specs.Prelude.{◌≡◌, ◌+◌, ◌*◌, ◌≤◌, ◌<◌, length, get_or};
ghost use Rattle.rules.specs.Buffers.{tab, head_row};
ghost use Rattle.link_notes.specs.Notes.{open_mark, carried, carried_rows};
ghost use Rattle.link_words.specs.Settled.{ends_before, word_place, WordAt, settled_word, settled_words, SettleReady};

use base_capacities::{RELOCATION_CELLS, RELOCATION_LABEL};
use link_blocks::{end_at, size_at, start_at};
use link_notes::OPEN;

// The address of relocation k.
fn place_at(relocations: &[u32], k: usize) -> usize
    requires { k * 2 + 1 < length relocations.now }
    ensures { (result ≡ get_or relocations.now (k * 2) 0) × (result < 4294967296) }
{
    let i = k * RELOCATION_CELLS;
    relocations[i] as usize
}

// The address that its name has in the result, or OPEN.
fn target_at(relocations: &[u32], k: usize, notes: &[u32]) -> u32
    requires { (k * 2 + 1 < length relocations.now) × (get_or relocations.now (k * 2 + 1) 0 * 2 + 1 < length notes.now) }
    ensures { result ≡ (carried relocations.now notes.now k).1.1 }
{
    let i = k * RELOCATION_CELLS + RELOCATION_LABEL;
    let row = relocations[i] as usize;
    link_notes::address_at(notes, row)
}

// A block ends at the address of relocation k, or before.
fn ends_before(blocks: &[u16], row: usize, relocations: &[u32], k: usize) -> bool
    requires { (row * 2 + 1 < length blocks.now) × (k * 2 + 1 < length relocations.now) }
    ensures { result ≡ ends_before blocks.now row relocations.now k }
{
    end_at(blocks, row) <= place_at(relocations, k)
}

// Where the word of relocation k stands, which is in a block with so many words before it.
fn word_at(blocks: &[u16], row: usize, passed: usize, relocations: &[u32], k: usize) -> usize
    requires { WordAt blocks.now row passed relocations.now k }
    ensures { result ≡ word_place blocks.now row passed relocations.now k }
{
    passed + (place_at(relocations, k) - start_at(blocks, row))
}

// An address as word p, unless it is OPEN.
fn settle_word(words: &mut [u16], p: usize, address: u32)
    requires { (p < length words.old) × (address ≤ open_mark) }
    ensures { words.new ≡ settled_word words.old p address }
{
    if address == OPEN {
        return;
    }
    words[p] = address as u16;
}

// Relocations and blocks both rise: of the blocks, those that end at the next relocation's address or before are passed, and their words counted.
pub fn settle_words(
    relocations: &[u32],
    n: usize,
    notes: &[u32],
    blocks: &[u16],
    nb: usize,
    words: &mut [u16],
)
    requires { SettleReady n relocations.now notes.now nb blocks.now words.old }
    ensures { words.new ≡ settled_words (tab nb (head_row blocks.now)) words.old (carried_rows n relocations.now notes.now) }
{
    let mut k = 0;
    let mut row = 0;
    let mut passed = 0;
    // A while: each turn passes a relocation or a block.
    while k < n {
        if ends_before(blocks, row, relocations, k) {
            passed += size_at(blocks, row);
            row += 1;
            continue;
        }
        let p = word_at(blocks, row, passed, relocations, k);
        settle_word(words, p, target_at(relocations, k, notes));
        k += 1;
    }
}
