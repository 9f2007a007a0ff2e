// Replays answers of assembling: each source of data/vectors_1.txt and vectors_2.txt into buffers of the sizes named there. Writes those that differ, and at the end how many were replayed.
#![tactic(auto)]

use lc3_input::STDOUT_FILENO;
use object_answer::Answer;
use std::fs::File;
use test_replay::Lacking;

// Whether a source of so many bytes is answered as asked.
fn right(src: &[u8], size: usize, lacking: Lacking, asked: Answer, digits: &[u8]) -> bool {
    if size <= src.len() {
        return test_replay::replayed(&src[0..size], lacking, asked, digits);
    }
    false
}

// Replays the line at a place, and answers where the next one begins.
fn replay(data: &[u8], at: usize, src: &mut [u8], line: u64) -> usize {
    let source = test_support::write_source(data, at, src);
    let lacking = test_replay::lacking_at(data, source.next);
    let expected = test_replay::expected_at(data, lacking.next);
    let listing = test_support::part_at(data, expected.next);
    let answer = expected.answer;
    let digits = test_support::digits_of(data, listing);
    if right(src, source.value, lacking, answer, digits) {
        return listing.next;
    }
    io::write_all(STDOUT_FILENO, &test_support::difference(line));
    listing.next
}

// How many lines are replayed at most.
const MOST_LINES: u64 = 100000;

// Replays all lines and answers how many there are.
fn replay_all(data: &[u8], src: &mut [u8]) -> u64 {
    let mut at: usize = 0;
    for line in 0..MOST_LINES {
        if data.len() <= at {
            return line;
        }
        at = replay(data, at, src, line);
    }
    MOST_LINES
}

// How many bytes a file has at most, and a source.
const FILE: usize = 327680;

const SOURCE: usize = 262146;

// Replays the lines of an open file, read into `data`, and answers how many there are.
fn replay_open(mut file: File, data: &mut [u8; FILE], src: &mut [u8; SOURCE]) -> u64 {
    let got = lc3_input::fill(&mut file, data);
    let read: &[u8] = data;
    replay_all(&read[..got], src)
}

// Replays the lines of an open file and answers how many there are.
fn replay_whole(file: File) -> u64 {
    let mut data = [0u8; FILE];
    let mut src = [0u8; SOURCE];
    replay_open(file, &mut data, &mut src)
}

// Replays the lines of a file and answers how many there are.
fn replay_file(rt: &HostRuntime, path: &str) -> u64 {
    match File::open(rt, path) {
        Ok(file) => replay_whole(file),
        Err(error) => {
            lc3_input::tell_unopened(rt, path, error);
            0
        }
    }
}

fn main(rt: HostRuntime) {
    let first = replay_file(&rt, "vectors_1.txt");
    let second = replay_file(&rt, "vectors_2.txt");
    io::print_decimal(STDOUT_FILENO, std::num::wrapping_add_u64(first, second));
    io::write_all(STDOUT_FILENO, b"\n");
}
