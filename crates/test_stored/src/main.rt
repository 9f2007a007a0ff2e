// Replays answers of checking and loading stored bytes: those of each line of data/vectors.txt, loaded into buffers of the sizes named there. What is accepted is walked through field by field
// with the small reader, and stored again. Writes the lines that differ, and at the end how many were replayed.
#![tactic(auto)]

use lc3_input::STDOUT_FILENO;
use object_answer::Answer;
use std::cmp::Ordering;
use std::fs::File;
use std::num::wrapping_add_usize;
use stored_fields::{BLOCK, DEFINED_LABEL, EXTERNAL_LABEL, RELOCATION, SET_WORDS, UNSET_WORDS};
use stored_read::Field;
use test_replay::Lacking;

// How many words and marks are lent where nothing is lacking; the object of a line has no more.
const WORDS: usize = 32768;

// How many bytes a line stands for at most.
const BYTES: usize = 73728;

// How many bytes the file has at most.
const FILE: usize = 327680;

// What the fields up to a place have told.
#[derive(Clone, Copy)]
struct Met {
    at: usize,
    blocks: usize,
    words: usize,
    labels: usize,
    relocations: usize,
}

fn number_in(content: &[u8]) -> usize {
    let high = usize::from(base_text::byte_at(content, 0));
    let low = usize::from(base_text::byte_at(content, 1));
    high << 8 | low
}

// How many words a field has.
fn words_in(tag: u8, content: &[u8]) -> usize {
    if tag == SET_WORDS {
        return content.len() >> 1;
    }
    if tag == UNSET_WORDS {
        return number_in(content);
    }
    0
}

// One more where it holds.
fn count(n: usize, holds: bool) -> usize {
    if holds {
        return wrapping_add_usize(n, 1);
    }
    n
}

// What is met with a field more.
fn meet(bytes: &[u8], met: Met, tag: u8, start: usize, end: usize) -> Met {
    let content = stored_read::content_of(bytes, Field::Found { tag, start, end });
    Met {
        at: end,
        blocks: count(met.blocks, tag == BLOCK),
        words: wrapping_add_usize(met.words, words_in(tag, content)),
        labels: count(met.labels, (tag == DEFINED_LABEL) | (tag == EXTERNAL_LABEL)),
        relocations: count(met.relocations, tag == RELOCATION),
    }
}

// All fields of stored bytes, of which there are fewer than bytes.
fn walk(bytes: &[u8]) -> Met {
    let mut met = Met {
        at: 0,
        blocks: 0,
        words: 0,
        labels: 0,
        relocations: 0,
    };
    for _ in 0..bytes.len() {
        match stored_reader::read_at(bytes, met.at) {
            Field::Found { tag, start, end } => {
                met = meet(bytes, met, tag, start, end);
            }
            Field::CutShort => {
                return met;
            }
            Field::Over => {
                return met;
            }
        }
    }
    met
}

// Whether the walk goes through all bytes and meets what was counted.
fn walked(bytes: &[u8], answer: Answer) -> bool {
    let met = walk(bytes);
    (met.at == bytes.len())
        & (met.blocks == answer.blocks)
        & (met.words == answer.words)
        & (met.labels == answer.labels)
        & (met.relocations == answer.relocations)
}

fn same_bytes(a: &[u8], b: &[u8]) -> bool {
    match base_text::compare_bytes(a, b) {
        Ordering::Equal => true,
        Ordering::Less => false,
        Ordering::Greater => false,
    }
}

// Whether the object in these buffers is stored as these bytes.
fn stored_again(
    bytes: &[u8],
    answer: Answer,
    blocks: &[u16],
    words: &[u16],
    marks: &[u8],
    labels: &[u32],
    relocations: &[u32],
    names: &[u8],
) -> bool {
    let mut again = [0u8; BYTES];
    let written = stored::store(
        object_answer::counts_of(answer),
        blocks,
        words,
        marks,
        labels,
        relocations,
        names,
        &mut again,
    );
    match written {
        Ok(n) => {
            if n <= BYTES {
                return same_bytes(&again[0..n], bytes);
            }
            false
        }
        Err(_) => false,
    }
}

// Loads bytes into these buffers: whether that is answered as asked, and what is accepted is these bytes again.
fn loaded(
    bytes: &[u8],
    asked: Answer,
    blocks: &mut [u16],
    words: &mut [u16],
    marks: &mut [u8],
    labels: &mut [u32],
    relocations: &mut [u32],
    names: &mut [u8],
) -> bool {
    let answer = stored_load::load(bytes, blocks, words, marks, labels, relocations, names);
    if test_replay::same_answer(answer, asked) {
        if answer.number == 0 {
            return stored_again(
                bytes,
                answer,
                blocks,
                words,
                marks,
                labels,
                relocations,
                names,
            ) & walked(bytes, answer);
        }
        return true;
    }
    false
}

// The same with buffers that lack so much of their sizes.
fn loaded_lacking(bytes: &[u8], lacking: Lacking, asked: Answer) -> bool {
    let mut blocks = [0u16; object::BLOCK_ROOM];
    let mut words = [0u16; WORDS];
    let mut marks = [0u8; WORDS];
    let mut labels = [0u32; object::LABEL_ROOM];
    let mut relocations = [0u32; object::RELOCATION_ROOM];
    let mut names = [0u8; object::NAME_ROOM];
    let b = test_replay::left(object::BLOCK_ROOM, lacking.blocks);
    let w = test_replay::left(WORDS, lacking.words);
    let m = test_replay::left(WORDS, lacking.marks);
    let l = test_replay::left(object::LABEL_ROOM, lacking.labels);
    let r = test_replay::left(object::RELOCATION_ROOM, lacking.relocations);
    let n = test_replay::left(object::NAME_ROOM, lacking.names);
    loaded(
        bytes,
        asked,
        &mut blocks[0..b],
        &mut words[0..w],
        &mut marks[0..m],
        &mut labels[0..l],
        &mut relocations[0..r],
        &mut names[0..n],
    )
}

// What loading is to answer, where checking is to answer this and loading has this number: 42 and 41 have no place.
fn asked_of(checked: Answer, number: usize) -> Answer {
    if number == 41 {
        return object_answer::refusal(base_refusals::NO_ROOM, 0, 0, 0, 0);
    }
    if number == 42 {
        return object_answer::refusal(base_refusals::SHORT_BUFFER, 0, 0, 0, 0);
    }
    checked
}

// Whether bytes are checked and loaded as asked.
fn as_asked(bytes: &[u8], lacking: Lacking, checked: Answer, number: usize) -> bool {
    test_replay::same_answer(stored_check::check(bytes), checked)
        & loaded_lacking(bytes, lacking, asked_of(checked, number))
}

// So many bytes of those written.
fn first_of(src: &[u8], n: usize) -> &[u8] {
    if n <= src.len() {
        return &src[0..n];
    }
    src
}

// Replays the line at a place; where the next one begins.
fn replay(data: &[u8], lacking: Lacking, line: u64) -> usize {
    let mut src = [0u8; BYTES];
    let source = test_support::write_source(data, lacking.next, &mut src);
    let expected = test_replay::expected_at(data, source.next);
    let number = test_support::decimal(data, expected.next);
    if as_asked(
        first_of(&src, source.value),
        lacking,
        expected.answer,
        number.value,
    ) {
        return number.next;
    }
    io::write_all(STDOUT_FILENO, &test_support::difference(line));
    number.next
}

// How many lines are replayed at most.
const MOST_LINES: u64 = 100000;

// Replays all lines and answers how many there are.
fn replay_all(data: &[u8]) -> u64 {
    let mut at: usize = 0;
    for line in 0..MOST_LINES {
        if data.len() <= at {
            return line;
        }
        at = replay(data, test_replay::lacking_at(data, at), line);
    }
    MOST_LINES
}

// Replays the lines of an open file, read into `data`, and answers how many there are.
fn replay_open(mut file: File, data: &mut [u8; FILE]) -> u64 {
    let got = lc3_input::fill(&mut file, data);
    let read: &[u8] = data;
    replay_all(&read[..got])
}

// Replays the lines of an open file, and writes how many there are.
fn replay_file(file: File) {
    let mut data = [0u8; FILE];
    io::print_decimal(STDOUT_FILENO, replay_open(file, &mut data));
    io::write_all(STDOUT_FILENO, b"\n");
}

fn main(rt: HostRuntime) {
    let path = "vectors.txt";
    match File::open(&rt, path) {
        Ok(file) => replay_file(file),
        Err(error) => lc3_input::tell_unopened(&rt, path, error),
    }
}
