// The blocks of two objects that are linked: whether they share an address, and both tables in one, with their words and marks.
#![tactic(auto)]

ghost use Rattle.std.specs.Prelude.{◌≡◌, ◌+◌, ◌*◌, ◌≤◌, ◌<◌, length};
ghost use Rattle.std.proofs.Math.Seq.{paste};
ghost use Rattle.rules.specs.Buffers.{tab, head_row, lay};
ghost use Rattle.link_blocks.specs.Meeting.{BlockRows, before, meeting};
ghost use Rattle.link_blocks.specs.Merged.{both_blocks, MergeReady, BlocksLaid, part, first_next, merged_rows, merged_parts, RowsReady, PartsReady};

use base_capacities::{BLOCK_CELLS, BLOCK_LENGTH};
use object::Counts;

// Where block k starts, how many words it has, and where it ends.
pub fn start_at(blocks: &[u16], k: usize) -> usize
    requires { k * 2 + 1 < length blocks.now }
    ensures { (result ≡ (head_row blocks.now k).0) × (result < 65536) }
{
    let i = k * BLOCK_CELLS;
    usize::from(blocks[i])
}

pub fn size_at(blocks: &[u16], k: usize) -> usize
    requires { k * 2 + 1 < length blocks.now }
    ensures { (result ≡ (head_row blocks.now k).1) × (result < 65536) }
{
    let i = k * BLOCK_CELLS + BLOCK_LENGTH;
    usize::from(blocks[i])
}

pub fn end_at(blocks: &[u16], k: usize) -> usize
    requires { k * 2 + 1 < length blocks.now }
    ensures { result ≡ (head_row blocks.now k).0 + (head_row blocks.now k).1 }
{
    let i = k * BLOCK_CELLS;
    usize::from(blocks[i]) + usize::from(blocks[i + BLOCK_LENGTH])
}

// Block i of a ends where block j of b starts, or before.
fn lies_before(a: &[u16], i: usize, b: &[u16], j: usize) -> bool
    requires { (i * 2 + 1 < length a.now) × (j * 2 + 1 < length b.now) }
    ensures { result ≡ before (head_row a.now i) (head_row b.now j) }
{
    end_at(a, i) <= start_at(b, j)
}

// Some block of a and some block of b share an address. Of two that do not, the one that ends first goes.
pub fn blocks_meet(a: &[u16], na: usize, b: &[u16], nb: usize) -> bool
    requires { BlockRows na a.now × BlockRows nb b.now }
    ensures { result ≡ meeting (tab na (head_row a.now)) (tab nb (head_row b.now)) }
{
    let mut i = 0;
    let mut j = 0;
    // A loop: each turn passes a block of the one table or of the other.
    loop {
        if na <= i {
            return false;
        }
        if nb <= j {
            return false;
        }
        if lies_before(a, i, b, j) {
            i += 1;
            continue;
        }
        if lies_before(b, j, a, i) {
            j += 1;
            continue;
        }
        return true;
    }
}

// When i rows of a and j of b are out, the next by start is a's.
fn first_next(a: &[u16], na: usize, b: &[u16], nb: usize, i: usize, j: usize) -> bool
    requires { (na * 2 ≤ length a.now) × (nb * 2 ≤ length b.now) }
    ensures { result ≡ first_next na a.now nb b.now i j }
{
    if na <= i {
        return false;
    }
    if nb <= j {
        return true;
    }
    start_at(a, i) < start_at(b, j)
}

// n cells of src, from `from` on, to dst at `at`.
fn copy<T: Copy>(dst: &mut [T], at: usize, src: &[T], from: usize, n: usize)
    requires { (from + n ≤ length src.now) × (at + n ≤ length dst.old) }
    ensures { dst.new ≡ paste dst.old at (part from n src.now) n }
{
    base_buffers::put(dst, at, &src[from..from + n]);
}

// The rows of a and b by start, into a blank buffer.
fn fill_rows(a: &[u16], na: usize, b: &[u16], nb: usize, blocks: &mut [u16])
    requires { RowsReady na a.now nb b.now blocks.old }
    ensures { blocks.new ≡ lay (merged_rows na a.now nb b.now) (length blocks.old) }
{
    let mut i = 0;
    let mut j = 0;
    // A while: each turn passes a block of the one table or of the other.
    while i + j < na + nb {
        let at = (i + j) * BLOCK_CELLS;
        if first_next(a, na, b, nb, i, j) {
            copy(blocks, at, a, i * BLOCK_CELLS, BLOCK_CELLS);
            i += 1;
            continue;
        }
        copy(blocks, at, b, j * BLOCK_CELLS, BLOCK_CELLS);
        j += 1;
    }
}

// The words of the blocks of a and b, in that order, into a blank buffer. So many of each are out: i rows of a with p words, j of b with q.
fn fill_words(
    a: &[u16],
    na: usize,
    a_words: &[u16],
    b: &[u16],
    nb: usize,
    b_words: &[u16],
    words: &mut [u16],
)
    requires { PartsReady na a.now a_words.now nb b.now b_words.now words.old }
    ensures { words.new ≡ lay (merged_parts na a.now a_words.now nb b.now b_words.now) (length words.old) }
{
    let mut i = 0;
    let mut j = 0;
    let mut p = 0;
    let mut q = 0;
    // A while: each turn passes a block of the one table or of the other.
    while i + j < na + nb {
        let at = p + q;
        if first_next(a, na, b, nb, i, j) {
            let n = size_at(a, i);
            copy(words, at, a_words, p, n);
            p += n;
            i += 1;
            continue;
        }
        let n = size_at(b, j);
        copy(words, at, b_words, q, n);
        q += n;
        j += 1;
    }
}

// The marks of the blocks of a and b, in that order, into a blank buffer. So many of each are out: i rows of a with p marks, j of b with q.
fn fill_marks(
    a: &[u16],
    na: usize,
    a_marks: &[u8],
    b: &[u16],
    nb: usize,
    b_marks: &[u8],
    marks: &mut [u8],
)
    requires { PartsReady na a.now a_marks.now nb b.now b_marks.now marks.old }
    ensures { marks.new ≡ lay (merged_parts na a.now a_marks.now nb b.now b_marks.now) (length marks.old) }
{
    let mut i = 0;
    let mut j = 0;
    let mut p = 0;
    let mut q = 0;
    // A while: each turn passes a block of the one table or of the other.
    while i + j < na + nb {
        let at = p + q;
        if first_next(a, na, b, nb, i, j) {
            let n = size_at(a, i);
            copy(marks, at, a_marks, p, n);
            p += n;
            i += 1;
            continue;
        }
        let n = size_at(b, j);
        copy(marks, at, b_marks, q, n);
        q += n;
        j += 1;
    }
}

// The blocks of two objects that share no address, by start, with their words and marks, into three buffers whatever these hold.
pub fn merge_blocks(
    ca: Counts,
    a_blocks: &[u16],
    a_words: &[u16],
    a_marks: &[u8],
    cb: Counts,
    b_blocks: &[u16],
    b_words: &[u16],
    b_marks: &[u8],
    blocks: &mut [u16],
    words: &mut [u16],
    marks: &mut [u8],
)
    requires { MergeReady ca.blocks ca.words a_blocks.now a_words.now a_marks.now cb.blocks cb.words b_blocks.now b_words.now b_marks.now blocks.old words.old marks.old }
    ensures { BlocksLaid (both_blocks ca.blocks ca.words a_blocks.now a_words.now a_marks.now cb.blocks cb.words b_blocks.now b_words.now b_marks.now) blocks.old words.old marks.old blocks.new words.new marks.new }
{
    let na = ca.blocks;
    let nb = cb.blocks;
    base_buffers::clear(blocks, 0);
    fill_rows(a_blocks, na, b_blocks, nb, blocks);
    base_buffers::clear(words, 0);
    fill_words(a_blocks, na, a_words, b_blocks, nb, b_words, words);
    base_buffers::clear(marks, 0);
    fill_marks(a_blocks, na, a_marks, b_blocks, nb, b_marks, marks);
}
