// The closed blocks of pass two, by start: rows of start and length beside rows of their .orig places, and their words one after another.
#![tactic(auto)]

ghost use Rattle.std.specs.Prelude.{◌≡◌, ◌+◌, ◌*◌, ◌≤◌, ◌<◌, length, get_or};
ghost use Rattle.rules.specs.Passes.{ranges_overlap};
ghost use Rattle.pass2_blocks.specs.Rows.{row_in};
ghost use Rattle.pass2_blocks.specs.Spots.{Spotted};
ghost use Rattle.pass2_blocks.specs.Placing.{Ready, InsertAt, InsertedAt, clash_of, PlacedAs};

use base_capacities::{BLOCK_CELLS, BLOCK_LENGTH};
use base_refusals::{OVERLAPPING_BLOCKS, Refusal};

// Each of two blocks starts before the other ends.
fn ranges_overlap(a: u16, n: u16, b: u16, m: u16) -> bool
    ensures { result ≡ ranges_overlap a n b m }
{
    let from = usize::from(a);
    let other_from = usize::from(b);
    let end = from + usize::from(n);
    let other_end = other_from + usize::from(m);
    (from < other_end) & (other_from < end)
}

// The row before which a block belongs, and the place of its words; or the first row, by start, that it overlaps.
fn find_spot(blocks: &[u16], n: usize, start: u16, size: u16) -> Result<(usize, usize), usize>
    requires { (n ≤ 64) × (n * 2 ≤ length blocks.now) }
    ensures { Spotted blocks.now n start size result }
{
    let mut at = 0;
    for k in 0..n {
        let other = blocks[k * BLOCK_CELLS];
        let other_size = blocks[k * BLOCK_CELLS + BLOCK_LENGTH];
        if ranges_overlap(start, size, other, other_size) {
            return Err(k);
        }
        if start < other {
            return Ok((k, at));
        }
        at += usize::from(other_size);
    }
    Ok((n, at))
}

// The row (a, b) at row k of n rows of two.
fn row_in<T: Copy>(t: &mut [T], n: usize, k: usize, a: T, b: T)
    requires { (k ≤ n) × (n * 2 + 2 ≤ length t.old) }
    ensures { t.new ≡ row_in t.old n k a b }
{
    base_buffers::row(t, n, a, b);
    base_rotate::turn(t, k * 2, n * 2, n * 2 + 2);
}

// 28 at the .orig of a block, from `from` to `to`, and at that of row k, the earlier first.
fn overlap_with(origs: &[u32], k: usize, from: u32, to: u32) -> Refusal
    requires { k * 2 + 1 < length origs.now }
    ensures { result ≡ clash_of origs.now k from to }
{
    let other_start = origs[k * BLOCK_CELLS];
    let other_end = origs[k * BLOCK_CELLS + 1];
    if from <= other_start {
        return Refusal {
            number: OVERLAPPING_BLOCKS,
            start: from as usize,
            end: to as usize,
            start2: other_start as usize,
            end2: other_end as usize,
        };
    }
    Refusal {
        number: OVERLAPPING_BLOCKS,
        start: other_start as usize,
        end: other_end as usize,
        start2: from as usize,
        end2: to as usize,
    }
}

// The block at row k, and its words, the last in use, at `at`.
fn insert_block(
    blocks: &mut [u16],
    origs: &mut [u32],
    words: &mut [u16],
    marks: &mut [u8],
    n: usize,
    k: usize,
    at: usize,
    used: usize,
    start: u16,
    size: u16,
    from: u32,
    to: u32,
)
    requires { InsertAt blocks.old origs.old words.old marks.old n k at used size }
    ensures { InsertedAt blocks.old origs.old words.old marks.old blocks.new origs.new words.new marks.new n k at used start size from to }
{
    let mid = used - usize::from(size);
    row_in(blocks, n, k, start, size);
    row_in(origs, n, k, from, to);
    base_rotate::turn(words, at, mid, used);
    base_rotate::turn(marks, at, mid, used);
}

// The block whose words are the last `size` in use, placed among the n closed ones; or 28.
pub fn place_block(
    blocks: &mut [u16],
    origs: &mut [u32],
    words: &mut [u16],
    marks: &mut [u8],
    n: usize,
    used: usize,
    start: u16,
    size: u16,
    from: u32,
    to: u32,
) -> Result<(), Refusal>
    requires { Ready blocks.old origs.old words.old marks.old n used size }
    ensures { PlacedAs blocks.old origs.old words.old marks.old blocks.new origs.new words.new marks.new n used start size from to result }
{
    match find_spot(blocks, n, start, size) {
        Err(k) => Err(overlap_with(origs, k, from, to)),
        Ok((row, at)) => {
            insert_block(
                blocks, origs, words, marks, n, row, at, used, start, size, from, to,
            );
            Ok(())
        }
    }
}
