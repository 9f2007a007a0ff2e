// The answers of calls: of one that makes an object, acceptance with the object's counts or a refusal with its two places; of one that writes bytes, how many.
#![tactic(auto)]

ghost use Rattle.std.specs.Prelude.{◌≡◌};
ghost use Rattle.object_answer.specs.Meant.{accepting, counts_in, refusing};

use object::Counts;

// Number 0 is acceptance, with counts; any other is a refusal with its two places, and counts of 0.
#[derive(Clone, Copy)]
pub struct Answer {
    pub number: u16,
    pub start: usize,
    pub end: usize,
    pub start2: usize,
    pub end2: usize,
    pub blocks: usize,
    pub words: usize,
    pub labels: usize,
    pub relocations: usize,
}

// The answer of a refusal.
pub fn refusal(number: u16, start: usize, end: usize, start2: usize, end2: usize) -> Answer
    ensures { result ≡ refusing number start end start2 end2 }
{
    Answer {
        number,
        start,
        end,
        start2,
        end2,
        blocks: 0,
        words: 0,
        labels: 0,
        relocations: 0,
    }
}

// The answer where an object with these counts is made.
pub fn acceptance(c: Counts) -> Answer
    ensures { result ≡ accepting c }
{
    Answer {
        number: 0,
        start: 0,
        end: 0,
        start2: 0,
        end2: 0,
        blocks: c.blocks,
        words: c.words,
        labels: c.labels,
        relocations: c.relocations,
    }
}

// The counts in an answer: those of the object that was made.
pub fn counts_of(answer: Answer) -> Counts
    ensures { result ≡ counts_in answer }
{
    Counts {
        blocks: answer.blocks,
        words: answer.words,
        labels: answer.labels,
        relocations: answer.relocations,
    }
}
