// What the programs that replay answers share: the fields of an answer read, an answer and its object held to them, and a source assembled into buffers that may lack some of
// their full sizes.
#![tactic(auto)]

ghost use Rattle.std.specs.Prelude.{◌≡◌, ◌-◌, ◌%◌, ◌≤◌};
ghost use Rattle.rules.specs.Buffers.{six};
ghost use Rattle.test_replay.specs.Asked.{lacking_at, expected_at, same_answer};
ghost use Rattle.test_replay.specs.Replayed.{held_to, Listed, AsAsked, Replays, lent_to};

use object::Counts;
use object_answer::Answer;

// How many numbers each lent buffer lacks of its full size, and where the field after them begins.
#[derive(Clone, Copy)]
pub struct Lacking {
    pub blocks: usize,
    pub words: usize,
    pub marks: usize,
    pub labels: usize,
    pub relocations: usize,
    pub names: usize,
    pub next: usize,
}

// The answer that a line asks for, and where the field after it begins.
#[derive(Clone, Copy)]
pub struct Expected {
    pub answer: Answer,
    pub next: usize,
}

// How much each buffer lacks, read from a place.
pub fn lacking_at(text: &[u8], at: usize) -> Lacking
    ensures { result ≡ lacking_at text.now at }
{
    let a = test_support::decimal(text, at);
    let b = test_support::decimal(text, a.next);
    let c = test_support::decimal(text, b.next);
    let d = test_support::decimal(text, c.next);
    let e = test_support::decimal(text, d.next);
    let f = test_support::decimal(text, e.next);
    Lacking {
        blocks: a.value,
        words: b.value,
        marks: c.value,
        labels: d.value,
        relocations: e.value,
        names: f.value,
        next: f.next,
    }
}

// The low sixteen bits.
fn low16(n: usize) -> u16
    ensures { result ≡ n % 65536 }
{
    (n % 65536) as u16
}

// The answer that is asked for, read from a place.
pub fn expected_at(text: &[u8], at: usize) -> Expected
    ensures { result ≡ expected_at text.now at }
{
    let a = test_support::decimal(text, at);
    let b = test_support::decimal(text, a.next);
    let c = test_support::decimal(text, b.next);
    let d = test_support::decimal(text, c.next);
    let e = test_support::decimal(text, d.next);
    let f = test_support::decimal(text, e.next);
    let g = test_support::decimal(text, f.next);
    let h = test_support::decimal(text, g.next);
    let i = test_support::decimal(text, h.next);
    let answer = Answer {
        number: low16(a.value),
        start: b.value,
        end: c.value,
        start2: d.value,
        end2: e.value,
        blocks: f.value,
        words: g.value,
        labels: h.value,
        relocations: i.value,
    };
    Expected {
        answer,
        next: i.next,
    }
}

// What is left of a full size that lacks so many.
pub fn left(full: usize, lacking: usize) -> usize
    ensures { (result ≡ full - lacking) × (result ≤ full) }
{
    if full < lacking {
        return 0;
    }
    full - lacking
}

// Whether two answers are the same, number by number.
pub fn same_answer(a: Answer, b: Answer) -> bool
    ensures { result ≡ same_answer a b }
{
    (a.number == b.number)
        & (a.start == b.start)
        & (a.end == b.end)
        & (a.start2 == b.start2)
        & (a.end2 == b.end2)
        & (a.blocks == b.blocks)
        & (a.words == b.words)
        & (a.labels == b.labels)
        & (a.relocations == b.relocations)
}

// Whether a listing of less than 400 bytes is that of the digits, and a longer one has none.
fn same_listing(listed: Result<usize, u16>, text: &[u8], digits: &[u8]) -> bool
    ensures { result ≡ held_to listed text.now digits.now }
{
    match listed {
        Ok(n) => {
            if n <= text.len() {
                return test_support::same_hex(&text[0..n], digits);
            }
            false
        }
        Err(number) => (number == 51) & (digits.len() == 0),
    }
}

// Whether the listing of an accepted object is the one asked for.
fn listed_right(
    c: Counts,
    blocks: &[u16],
    words: &[u16],
    marks: &[u8],
    labels: &[u32],
    relocations: &[u32],
    names: &[u8],
    digits: &[u8],
) -> bool
    ensures { Listed c (six blocks.now words.now marks.now labels.now relocations.now names.now) digits.now result }
{
    let mut text = [0u8; 399];
    let listed = list::list(
        c,
        blocks,
        words,
        marks,
        labels,
        relocations,
        names,
        &mut text,
    );
    same_listing(listed, &text, digits)
}

// Whether an answer is the one asked for, and where it is acceptance the listing of the object that it left.
pub fn as_asked(
    got: Answer,
    asked: Answer,
    digits: &[u8],
    blocks: &[u16],
    words: &[u16],
    marks: &[u8],
    labels: &[u32],
    relocations: &[u32],
    names: &[u8],
) -> bool
    ensures { AsAsked got asked digits.now (six blocks.now words.now marks.now labels.now relocations.now names.now) result }
{
    if same_answer(got, asked) {
        if got.number == 0 {
            return listed_right(
                object_answer::counts_of(got),
                blocks,
                words,
                marks,
                labels,
                relocations,
                names,
                digits,
            );
        }
        return true;
    }
    false
}

// Whether a source is answered as asked in these buffers.
fn answered(
    src: &[u8],
    asked: Answer,
    digits: &[u8],
    blocks: &mut [u16],
    words: &mut [u16],
    marks: &mut [u8],
    labels: &mut [u32],
    relocations: &mut [u32],
    names: &mut [u8],
) -> bool
    ensures { Replays (six blocks.old words.old marks.old labels.old relocations.old names.old) src.now asked digits.now result }
{
    let got = asm::assemble(src, blocks, words, marks, labels, relocations, names);
    as_asked(
        got,
        asked,
        digits,
        blocks,
        words,
        marks,
        labels,
        relocations,
        names,
    )
}

// Whether a source is answered as asked in buffers that lack so much of their full sizes.
pub fn replayed(src: &[u8], lacking: Lacking, asked: Answer, digits: &[u8]) -> bool
    ensures { Replays (lent_to lacking) src.now asked digits.now result }
{
    let mut blocks = [0u16; 128];
    let mut words = [0u16; 65024];
    let mut marks = [0u8; 65024];
    let mut labels = [0u32; 4096];
    let mut relocations = [0u32; 2048];
    let mut names = [0u8; 65536];
    let b = left(128, lacking.blocks);
    let w = left(65024, lacking.words);
    let m = left(65024, lacking.marks);
    let l = left(4096, lacking.labels);
    let r = left(2048, lacking.relocations);
    let n = left(65536, lacking.names);
    answered(
        src,
        asked,
        digits,
        &mut blocks[0..b],
        &mut words[0..w],
        &mut marks[0..m],
        &mut labels[0..l],
        &mut relocations[0..r],
        &mut names[0..n],
    )
}
