// What pass one keeps beside its tables, whatever changes it, and the steps that change no table: the counter's advance, .orig and .end.
#![tactic(auto)]

ghost use Rattle.std.specs.Prelude.{◌≡◌, ◌+◌, ◌-◌, ◌≤◌, ◌<◌, Err};
ghost use Rattle.rules.specs.Base.{span};
ghost use Rattle.rules.specs.Words.{orig};
ghost use Rattle.rules.specs.Words as Words;
ghost use Rattle.rules.specs.Statements.{Stmt};
ghost use Rattle.rules.specs.Passes.{advanced, directed};
ghost use Rattle.base_refusals.specs.Refusals.{refusal_at};
ghost use Rattle.pass1_state.specs.State.{view_pass1, fresh, with_labels, with_relocations, counting, opening, closing, Steady, Stepping};

use base_refusals::Refusal;

// The open block's start, counter and .orig, where a block is open; the rows of both tables; and how many blocks with words are closed, with how many words.
#[derive(Clone, Copy)]
pub struct Pass1State {
    pub inside: bool,
    pub start: u32,
    pub counter: u32,
    pub orig_start: usize,
    pub orig_end: usize,
    pub labels: usize,
    pub relocations: usize,
    pub blocks: usize,
    pub words: usize,
}

// A refusal at one place.
pub fn refused(number: u16, start: usize, end: usize) -> Result<Pass1State, Refusal>
    ensures { result ≡ Err (refusal_at number start end) }
{
    Err(Refusal {
        number,
        start,
        end,
        start2: 0,
        end2: 0,
    })
}

// Pass one before the first statement.
pub fn fresh() -> Pass1State
    ensures { result ≡ fresh }
{
    Pass1State {
        inside: false,
        start: 0,
        counter: 0,
        orig_start: 0,
        orig_end: 0,
        labels: 0,
        relocations: 0,
        blocks: 0,
        words: 0,
    }
}

// The state with so many rows of symbols.
pub fn with_labels(o: Pass1State, labels: usize) -> Pass1State
    ensures { result ≡ with_labels o labels }
{
    Pass1State { labels, ..o }
}

// The state with so many rows of relocations.
pub fn with_relocations(o: Pass1State, relocations: usize) -> Pass1State
    ensures { result ≡ with_relocations o relocations }
{
    Pass1State { relocations, ..o }
}

// The state with another counter.
pub fn counted(o: Pass1State, counter: u32) -> Pass1State
    ensures { result ≡ counting o counter }
{
    Pass1State {
        inside: true,
        counter,
        ..o
    }
}

// The state with a block that begins at an address.
fn begin(o: Pass1State, address: u32, orig_start: usize, orig_end: usize) -> Pass1State
    ensures { result ≡ opening o address orig_start orig_end }
{
    Pass1State {
        inside: true,
        start: address,
        counter: address,
        orig_start,
        orig_end,
        ..o
    }
}

// The state with no open block.
fn shut(o: Pass1State, blocks: usize, words: usize) -> Pass1State
    ensures { result ≡ closing o blocks words }
{
    Pass1State {
        inside: false,
        blocks,
        words,
        ..o
    }
}

// The counter goes on by a statement's size: 27 from xFE01 to x10000, 26 above.
pub fn shift(o: Pass1State, size: u32, start: usize, end: usize) -> Result<Pass1State, Refusal>
    requires { Steady o × (size ≤ 262145) }
    ensures { Stepping o (λ x y. advanced size (span start end) (view_pass1 x y o)) result }
{
    if o.inside {
        if size == 0 {
            return Ok(o);
        }
        let counter = o.counter + size;
        if counter <= base_capacities::IO_START {
            return Ok(counted(o, counter));
        }
        if counter <= base_capacities::ADDRESSES {
            return refused(base_refusals::BLOCK_IN_IO, start, end);
        }
        return refused(base_refusals::WRAPPING_BLOCK, start, end);
    }
    Ok(o)
}

// .orig: a block begins; 24 with both .orig where one is open.
pub fn begin_block(
    o: Pass1State,
    address: u32,
    start: usize,
    end: usize,
) -> Result<Pass1State, Refusal>
    requires { Steady o × (address < 65536) }
    ensures { (s : Stmt) → s.bits ≡ address → s.place ≡ span start end → Stepping o (λ x y. directed orig s (view_pass1 x y o)) result }
{
    if o.inside {
        return Err(Refusal {
            number: base_refusals::OVERLAPPING_ORIG,
            start: o.orig_start,
            end: o.orig_end,
            start2: start,
            end2: end,
        });
    }
    Ok(begin(o, address, start, end))
}

// .end: the block ends, and counts where it has words: 40 where no row is left for it; 23 where none is open.
pub fn end_block(o: Pass1State, start: usize, end: usize) -> Result<Pass1State, Refusal>
    requires { Steady o }
    ensures { (s : Stmt) → s.place ≡ span start end → Stepping o (λ x y. directed Words.end s (view_pass1 x y o)) result }
{
    if o.inside {
        let blocks = o.blocks;
        let words = o.words;
        let size = (o.counter - o.start) as usize;
        if size == 0 {
            return Ok(shut(o, blocks, words));
        }
        if blocks < base_capacities::BLOCKS {
            return Ok(shut(o, blocks + 1, words + size));
        }
        return refused(base_refusals::TABLE_FULL, start, end);
    }
    refused(base_refusals::UNOPENED_ORIG, start, end)
}
