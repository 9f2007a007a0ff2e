// Blocks as stored bytes: each block's field and the runs of its words, and how many bytes that is.
#![tactic(auto)]

ghost use Rattle.std.specs.Prelude.{◌≡◌, ◌+◌, ◌*◌, ◌≤◌, ◌<◌, length};
ghost use Rattle.rules.specs.Buffers.{BlocksOk, WordsOk};
ghost use Rattle.object.specs.Decides.{Decides};
ghost use Rattle.list_lines.specs.Appended.{Appended};
ghost use Rattle.stored_write_blocks.specs.Runs.{Alike, alike, Passed, run_ahead, run_field, run_bytes, Marked, CellsReady, RunFits, RunSized, RunsSized};
ghost use Rattle.stored_write_blocks.specs.Blocks.{block_bytes, blocks_bytes, MarksOk, BlocksSized};

use base_capacities::{BLOCK_CELLS, BLOCK_LENGTH, UNSET};
use stored_fields::{BLOCK_BYTES, HEAD_BYTES, NUMBER_BYTES, RUN_WORDS};

// How many marks are looked at in one step.
const STEP: usize = 256;

// Every mark is `mark`. The loop has no exit, so that many are looked at at once.
fn all_alike(marks: &[u8], mark: u8) -> bool
    ensures { Decides (Alike mark marks.now (length marks.now)) result }
{
    let mut alike = true;
    for x in marks {
        alike &= *x == mark;
    }
    alike
}

// How many marks at the front are `mark`, of which the first `at` are passed.
fn alike_from(marks: &[u8], mark: u8, at: usize) -> usize
    requires { Passed mark marks.now at }
    ensures { result ≡ alike mark marks.now }
{
    for i in at..marks.len() {
        if marks[i] != mark {
            return i;
        }
    }
    marks.len()
}

// How many marks at the front are `mark`.
fn alike_ahead(marks: &[u8], mark: u8) -> usize
    ensures { result ≡ alike mark marks.now }
{
    let mut i = 0;
    // A while: it goes on by strides, and ends at the first stride with another mark.
    while STEP <= marks.len() - i {
        let stop = i + STEP;
        if all_alike(&marks[i..stop], mark) {
            i = stop;
        } else {
            return alike_from(marks, mark, i);
        }
    }
    alike_from(marks, mark, i)
}

// How many words the first run has.
fn run_ahead(marks: &[u8]) -> usize
    requires { 0 < length marks.now }
    ensures { result ≡ run_ahead marks.now }
{
    let mark = marks[0];
    if mark == UNSET {
        return alike_ahead(marks, UNSET);
    }
    alike_ahead(&marks[..RUN_WORDS.min(marks.len())], mark)
}

// The field of a run whose words have this mark.
fn put_run(out: &mut [u8], at: usize, mark: u8, words: &[u16]) -> usize
    requires run_fits { RunFits mark (length words.now) }
    requires words_in_bounds { at + length (run_field mark words.now) ≤ length out.old }
    ensures { Appended out.old out.new at result (run_field mark words.now) }
{
    if mark == UNSET {
        return stored_fields::put_unset(out, at, words.len());
    }
    stored_fields::put_set(out, at, words)
}

// The fields of all runs of a block's words.
fn put_runs(out: &mut [u8], at: usize, words: &[u16], marks: &[u8]) -> usize
    requires cells_ready { CellsReady words.now marks.now }
    requires marks_in_bounds { at + length (run_bytes words.now marks.now) ≤ length out.old }
    ensures { Appended out.old out.new at result (run_bytes words.now marks.now) }
{
    let mut i = 0;
    let mut end = at;
    // A while: each turn passes one run, and the marks say how long it is.
    while i < marks.len() {
        let size = run_ahead(&marks[i..]);
        let stop = i + size;
        end = put_run(out, end, marks[i], &words[i..stop]);
        i = stop;
    }
    end
}

// How many bytes a run of n words with this mark has.
fn run_bytes(mark: u8, n: usize) -> usize
    requires { (0 < n) × (n ≤ 65024) }
    ensures { RunSized mark n result }
{
    if mark == UNSET {
        return HEAD_BYTES + NUMBER_BYTES;
    }
    HEAD_BYTES + n * NUMBER_BYTES
}

// How many bytes the runs of a block's words have.
fn runs_size(marks: &[u8]) -> usize
    requires marked { Marked marks.now }
    requires marks_len_bound { length marks.now ≤ 65024 }
    ensures { RunsSized marks.now result }
{
    let mut i = 0;
    let mut size = 0;
    // A while: each turn passes one run, and the marks say how long it is.
    while i < marks.len() {
        let n = run_ahead(&marks[i..]);
        size += run_bytes(marks[i], n);
        i += n;
    }
    size
}

// A block's bytes.
fn put_block(out: &mut [u8], at: usize, start: u16, words: &[u16], marks: &[u8]) -> usize
    requires cells_ready { CellsReady words.now marks.now }
    requires marks_in_bounds { at + length (block_bytes start words.now marks.now) ≤ length out.old }
    ensures { Appended out.old out.new at result (block_bytes start words.now marks.now) }
{
    let size = words.len() as u16;
    let next = stored_fields::put_block_field(out, at, start, size);
    put_runs(out, next, words, marks)
}

// The bytes of the first n blocks.
pub fn put_blocks(
    out: &mut [u8],
    at: usize,
    blocks: &[u16],
    n: usize,
    words: &[u16],
    marks: &[u8],
    w: usize,
) -> usize
    requires blocks_ok { BlocksOk n w blocks.now }
    requires words_ok { WordsOk w words.now marks.now }
    requires marks_in_bounds { at + length (blocks_bytes n w blocks.now words.now marks.now) ≤ length out.old }
    ensures { Appended out.old out.new at result (blocks_bytes n w blocks.now words.now marks.now) }
{
    let mut end = at;
    let mut first = 0;
    for k in 0..n {
        let i = k * BLOCK_CELLS;
        let start = blocks[i];
        let stop = first + usize::from(blocks[i + BLOCK_LENGTH]);
        end = put_block(out, end, start, &words[first..stop], &marks[first..stop]);
        first = stop;
    }
    end
}

// How many bytes the first n blocks have.
pub fn blocks_size(blocks: &[u16], n: usize, marks: &[u8], w: usize) -> usize
    requires blocks_ok { BlocksOk n w blocks.now }
    requires marks_ok { MarksOk w marks.now }
    ensures { BlocksSized n w blocks.now marks.now result }
{
    let mut first = 0;
    let mut size = 0;
    for k in 0..n {
        let i = k * BLOCK_CELLS;
        let stop = first + usize::from(blocks[i + BLOCK_LENGTH]);
        size += BLOCK_BYTES + runs_size(&marks[first..stop]);
        first = stop;
    }
    size
}
