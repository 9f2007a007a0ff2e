// What 43 demands of an object's blocks and words, and where the word of an address stands among them.
#![tactic(auto)]

ghost use Rattle.std.specs.Prelude.{◌≤◌, ◌<◌, length};
ghost use Rattle.rules.specs.Buffers.{BlocksOk, WordRow, WordsOk, ZeroAt};
ghost use Rattle.object.specs.Decides.{Decides};
ghost use Rattle.object_check_blocks.specs.Places.{Placed, ZeroCell, Celled, Part, Marked};

use base_capacities::{BLOCK_CELLS, BLOCK_LENGTH, BLOCKS, SET, UNSET};

// The first address of the devices, as wide as a sum of a start and a length.
const IO_START: usize = base_capacities::IO_START as usize;

// The n block rows rise without overlap, are not empty, end at most at xFE00 and have w words together.
pub fn check_blocks(blocks: &[u16], n: usize, w: usize) -> bool
    ensures { Decides (BlocksOk n w blocks.now) result }
{
    if BLOCKS < n {
        return false;
    }
    if blocks.len() < n * BLOCK_CELLS {
        return false;
    }
    let mut end = 0;
    let mut sum = 0;
    for k in 0..n {
        let i = k * BLOCK_CELLS;
        let start = usize::from(blocks[i]);
        let size = usize::from(blocks[i + BLOCK_LENGTH]);
        if start < end {
            return false;
        }
        if size == 0 {
            return false;
        }
        if IO_START < start + size {
            return false;
        }
        end = start + size;
        sum += size;
    }
    sum == w
}

// A mark is 1, or 0 beside a word that is 0.
fn check_cell(word: u16, mark: u8) -> bool
    ensures { Decides (Celled word mark) result }
{
    (mark == SET) | ((mark == UNSET) & (word == 0))
}

// How many words are looked at in one step.
const STEP: usize = 256;

// The marks from `at` up to `stop` are 1. The loop has no exit, so that many are looked at at once.
fn all_set(marks: &[u8], at: usize, stop: usize) -> bool
    requires { (at ≤ stop) × (stop ≤ length marks.now) }
    ensures { Decides (Part (Marked marks.now) at stop) result }
{
    let mut set = true;
    for i in at..stop {
        set &= marks[i] == SET;
    }
    set
}

// The marks from `at` up to `stop` are 0 or 1, and a word whose mark is 0 is 0. This loop has no exit either.
fn check_cells(words: &[u16], marks: &[u8], at: usize, stop: usize) -> bool
    requires { (at ≤ stop) × (stop ≤ length words.now) × (stop ≤ length marks.now) }
    ensures { Decides (Part (WordRow words.now marks.now) at stop) result }
{
    let mut good = true;
    for i in at..stop {
        good &= check_cell(words[i], marks[i]);
    }
    good
}

// The same. Where all are set, the words are not looked at.
fn check_part(words: &[u16], marks: &[u8], at: usize, stop: usize) -> bool
    requires { (at ≤ stop) × (stop ≤ length words.now) × (stop ≤ length marks.now) }
    ensures { Decides (Part (WordRow words.now marks.now) at stop) result }
{
    all_set(marks, at, stop) || check_cells(words, marks, at, stop)
}

// The first w marks are 0 or 1, and a word whose mark is 0 is 0.
pub fn check_words(words: &[u16], marks: &[u8], w: usize) -> bool
    ensures { Decides (WordsOk w words.now marks.now) result }
{
    if words.len() < w {
        return false;
    }
    if marks.len() < w {
        return false;
    }
    let mut i = 0;
    // A while: steps of 256 words, as long as so many are left.
    while STEP <= w - i {
        let stop = i + STEP;
        if check_part(words, marks, i, stop) {
            i = stop;
        } else {
            return false;
        }
    }
    check_part(words, marks, i, w)
}

// The place, among the words of all blocks, of the word at address x, if a block has it.
pub fn place_of(blocks: &[u16], n: usize, w: usize, x: usize) -> Option<usize>
    requires { BlocksOk n w blocks.now }
    ensures { Placed n w blocks.now x result }
{
    let mut sum = 0;
    for k in 0..n {
        let i = k * BLOCK_CELLS;
        let start = usize::from(blocks[i]);
        let size = usize::from(blocks[i + BLOCK_LENGTH]);
        if x < start {
            return None;
        }
        let d = x - start;
        if d < size {
            return Some(sum + d);
        }
        sum += size;
    }
    None
}

// Word p is set and 0.
pub fn zero_cell(words: &[u16], marks: &[u8], p: usize) -> bool
    requires { (p < length words.now) × (p < length marks.now) }
    ensures { Decides (ZeroCell words.now marks.now p) result }
{
    marks[p] != UNSET && words[p] == 0
}

// A set word 0 stands at an address.
pub fn zero_at(blocks: &[u16], n: usize, words: &[u16], marks: &[u8], w: usize, x: usize) -> bool
    requires { BlocksOk n w blocks.now × WordsOk w words.now marks.now }
    ensures { Decides (ZeroAt n w blocks.now words.now marks.now x) result }
{
    match place_of(blocks, n, w, x) {
        Some(p) => zero_cell(words, marks, p),
        None => false,
    }
}
