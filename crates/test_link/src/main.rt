// Replays answers of linking: the sources of each line of data/vectors.txt assembled and linked in its order and grouping, the last link into buffers of the sizes named there. Writes
// those that differ, and at the end how many were replayed.
#![tactic(auto)]

use lc3_input::STDOUT_FILENO;
use object_answer::Answer;
use std::fs::File;
use std::num::wrapping_add_usize;
use test_replay::Lacking;

// How many words and marks are lent where nothing is lacking; the objects of a line have no more together.
const WORDS: usize = 8192;

// How many bytes a source has at most.
const SOURCE: usize = 16384;

// How many bytes the file has at most.
const FILE: usize = 327680;

// What a source or a link answers, and where the field after it begins.
#[derive(Clone, Copy)]
struct Told {
    answer: Answer,
    next: usize,
}

// A source of so many bytes assembled.
fn assembled(
    src: &[u8],
    size: usize,
    blocks: &mut [u16],
    words: &mut [u16],
    marks: &mut [u8],
    labels: &mut [u32],
    relocations: &mut [u32],
    names: &mut [u8],
) -> Answer {
    if size <= src.len() {
        return asm::assemble(
            &src[0..size],
            blocks,
            words,
            marks,
            labels,
            relocations,
            names,
        );
    }
    asm::assemble(src, blocks, words, marks, labels, relocations, names)
}

// The source whose fields begin at a place.
fn source_at(
    data: &[u8],
    at: usize,
    blocks: &mut [u16],
    words: &mut [u16],
    marks: &mut [u8],
    labels: &mut [u32],
    relocations: &mut [u32],
    names: &mut [u8],
) -> Told {
    let mut src = [0u8; SOURCE];
    let source = test_support::write_source(data, at, &mut src);
    let answer = assembled(
        &src,
        source.value,
        blocks,
        words,
        marks,
        labels,
        relocations,
        names,
    );
    Told {
        answer,
        next: source.next,
    }
}

// Two objects linked; or the first refusal of the two.
fn linked(
    a: Answer,
    blocks1: &[u16],
    words1: &[u16],
    marks1: &[u8],
    labels1: &[u32],
    relocations1: &[u32],
    names1: &[u8],
    b: Answer,
    blocks2: &[u16],
    words2: &[u16],
    marks2: &[u8],
    labels2: &[u32],
    relocations2: &[u32],
    names2: &[u8],
    blocks: &mut [u16],
    words: &mut [u16],
    marks: &mut [u8],
    labels: &mut [u32],
    relocations: &mut [u32],
    names: &mut [u8],
) -> Answer {
    if a.number != 0 {
        return a;
    }
    if b.number != 0 {
        return b;
    }
    link::link(
        object_answer::counts_of(a),
        blocks1,
        words1,
        marks1,
        labels1,
        relocations1,
        names1,
        object_answer::counts_of(b),
        blocks2,
        words2,
        marks2,
        labels2,
        relocations2,
        names2,
        blocks,
        words,
        marks,
        labels,
        relocations,
        names,
    )
}

// Where the first of two linked begins behind a `+` and the byte after it.
fn past_plus(at: usize) -> usize {
    wrapping_add_usize(at, 2)
}

// How deep links stand in links at most.
const DEPTH: usize = 3;

// The source at a place; or, where links may stand so deep, `+` and two such linked.
fn tree_at(
    data: &[u8],
    at: usize,
    depth: usize,
    blocks: &mut [u16],
    words: &mut [u16],
    marks: &mut [u8],
    labels: &mut [u32],
    relocations: &mut [u32],
    names: &mut [u8],
) -> Told {
    if 0 < depth {
        if base_text::byte_at(data, at) == b'+' {
            let mut blocks1 = [0u16; object::BLOCK_ROOM];
            let mut words1 = [0u16; WORDS];
            let mut marks1 = [0u8; WORDS];
            let mut labels1 = [0u32; object::LABEL_ROOM];
            let mut relocations1 = [0u32; object::RELOCATION_ROOM];
            let mut names1 = [0u8; object::NAME_ROOM];
            let mut blocks2 = [0u16; object::BLOCK_ROOM];
            let mut words2 = [0u16; WORDS];
            let mut marks2 = [0u8; WORDS];
            let mut labels2 = [0u32; object::LABEL_ROOM];
            let mut relocations2 = [0u32; object::RELOCATION_ROOM];
            let mut names2 = [0u8; object::NAME_ROOM];
            let a = tree_at(
                data,
                past_plus(at),
                depth - 1,
                &mut blocks1,
                &mut words1,
                &mut marks1,
                &mut labels1,
                &mut relocations1,
                &mut names1,
            );
            let b = tree_at(
                data,
                a.next,
                depth - 1,
                &mut blocks2,
                &mut words2,
                &mut marks2,
                &mut labels2,
                &mut relocations2,
                &mut names2,
            );
            let answer = linked(
                a.answer,
                &blocks1,
                &words1,
                &marks1,
                &labels1,
                &relocations1,
                &names1,
                b.answer,
                &blocks2,
                &words2,
                &marks2,
                &labels2,
                &relocations2,
                &names2,
                blocks,
                words,
                marks,
                labels,
                relocations,
                names,
            );
            return Told {
                answer,
                next: b.next,
            };
        }
    }
    source_at(data, at, blocks, words, marks, labels, relocations, names)
}

// What was told, and the object in these buffers, held to the answer that is asked for behind it; where the next line begins.
fn hold(
    data: &[u8],
    told: Told,
    line: u64,
    blocks: &[u16],
    words: &[u16],
    marks: &[u8],
    labels: &[u32],
    relocations: &[u32],
    names: &[u8],
) -> usize {
    let expected = test_replay::expected_at(data, told.next);
    let listing = test_support::part_at(data, expected.next);
    let digits = test_support::digits_of(data, listing);
    if test_replay::as_asked(
        told.answer,
        expected.answer,
        digits,
        blocks,
        words,
        marks,
        labels,
        relocations,
        names,
    ) {
        return listing.next;
    }
    io::write_all(STDOUT_FILENO, &test_support::difference(line));
    listing.next
}

// Replays the link at a place into these buffers.
fn replay(
    data: &[u8],
    at: usize,
    line: u64,
    blocks: &mut [u16],
    words: &mut [u16],
    marks: &mut [u8],
    labels: &mut [u32],
    relocations: &mut [u32],
    names: &mut [u8],
) -> usize {
    let told = tree_at(
        data,
        at,
        DEPTH,
        blocks,
        words,
        marks,
        labels,
        relocations,
        names,
    );
    hold(
        data,
        told,
        line,
        blocks,
        words,
        marks,
        labels,
        relocations,
        names,
    )
}

// The same into buffers that lack so much of their sizes.
fn replay_lacking(data: &[u8], lacking: Lacking, line: u64) -> usize {
    let mut blocks = [0u16; object::BLOCK_ROOM];
    let mut words = [0u16; WORDS];
    let mut marks = [0u8; WORDS];
    let mut labels = [0u32; object::LABEL_ROOM];
    let mut relocations = [0u32; object::RELOCATION_ROOM];
    let mut names = [0u8; object::NAME_ROOM];
    let b = test_replay::left(object::BLOCK_ROOM, lacking.blocks);
    let w = test_replay::left(WORDS, lacking.words);
    let m = test_replay::left(WORDS, lacking.marks);
    let l = test_replay::left(object::LABEL_ROOM, lacking.labels);
    let r = test_replay::left(object::RELOCATION_ROOM, lacking.relocations);
    let n = test_replay::left(object::NAME_ROOM, lacking.names);
    replay(
        data,
        lacking.next,
        line,
        &mut blocks[0..b],
        &mut words[0..w],
        &mut marks[0..m],
        &mut labels[0..l],
        &mut relocations[0..r],
        &mut names[0..n],
    )
}

// How many lines are replayed at most.
const MOST_LINES: u64 = 100000;

// Replays all lines and answers how many there are.
fn replay_all(data: &[u8]) -> u64 {
    let mut at: usize = 0;
    for line in 0..MOST_LINES {
        if data.len() <= at {
            return line;
        }
        at = replay_lacking(data, test_replay::lacking_at(data, at), line);
    }
    MOST_LINES
}

// Replays the lines of an open file, read into `data`, and answers how many there are.
fn replay_open(mut file: File, data: &mut [u8; FILE]) -> u64 {
    let got = lc3_input::fill(&mut file, data);
    let read: &[u8] = data;
    replay_all(&read[..got])
}

// Replays the lines of an open file, and writes how many there are.
fn replay_file(file: File) {
    let mut data = [0u8; FILE];
    io::print_decimal(STDOUT_FILENO, replay_open(file, &mut data));
    io::write_all(STDOUT_FILENO, b"\n");
}

fn main(rt: HostRuntime) {
    let path = "vectors.txt";
    match File::open(&rt, path) {
        Ok(file) => replay_file(file),
        Err(error) => lc3_input::tell_unopened(&rt, path, error),
    }
}
