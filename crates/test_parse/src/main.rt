// Replays statement vectors against the statement reader, writes those that differ, and at the end how many were replayed.
#![tactic(auto)]

use lc3_input::STDOUT_FILENO;
use std::fs::File;

// A refusal by its number and place, or three zeros.
#[derive(Clone, Copy)]
struct Answer {
    number: usize,
    start: usize,
    end: usize,
}

// The first refusal of a source.
fn answer_of(src: &[u8]) -> Answer {
    match parse::check_source(src) {
        Ok(()) => Answer {
            number: 0,
            start: 0,
            end: 0,
        },
        Err(fault) => Answer {
            number: usize::from(fault.number),
            start: fault.start,
            end: fault.end,
        },
    }
}

fn compare(got: Answer, number: usize, start: usize, end: usize, line: u64) {
    let same = (got.number == number) & (got.start == start) & (got.end == end);
    if same {
        return;
    }
    io::write_all(STDOUT_FILENO, &test_support::difference(line));
}

// What the reader answers on the source of these digits.
fn replayed(digits: &[u8], src: &mut [u8]) -> Answer {
    let n = test_support::unhex(digits, src, 0);
    if n <= src.len() {
        return answer_of(&src[0..n]);
    }
    Answer {
        number: 99,
        start: 0,
        end: 0,
    }
}

// Replays the line at a place, and answers where the next one begins.
fn replay(data: &[u8], at: usize, src: &mut [u8], line: u64) -> usize {
    let part = test_support::part_at(data, at);
    let number = test_support::decimal(data, part.next);
    let start = test_support::decimal(data, number.next);
    let end = test_support::decimal(data, start.next);
    let got = replayed(test_support::digits_of(data, part), src);
    compare(got, number.value, start.value, end.value, line);
    end.next
}

// How many lines are replayed at most.
const MOST_LINES: u64 = 100000;

// Replays all lines and answers how many there are.
fn replay_all(data: &[u8], src: &mut [u8]) -> u64 {
    let mut at: usize = 0;
    for line in 0..MOST_LINES {
        if data.len() <= at {
            return line;
        }
        at = replay(data, at, src, line);
    }
    MOST_LINES
}

// How many bytes the file has at most, and a source.
const FILE: usize = 131072;

const SOURCE: usize = 1024;

// Replays the lines of an open file, read into `data`, and answers how many there are.
fn replay_open(mut file: File, data: &mut [u8; FILE], src: &mut [u8; SOURCE]) -> u64 {
    let got = lc3_input::fill(&mut file, data);
    let read: &[u8] = data;
    replay_all(&read[..got], src)
}

// Replays the lines of an open file, and writes how many there are.
fn replay_file(file: File) {
    let mut data = [0u8; FILE];
    let mut src = [0u8; SOURCE];
    let count = replay_open(file, &mut data, &mut src);
    io::print_decimal(STDOUT_FILENO, count);
    io::write_all(STDOUT_FILENO, b"\n");
}

fn main(rt: HostRuntime) {
    let path = "vectors.txt";
    match File::open(&rt, path) {
        Ok(file) => replay_file(file),
        Err(error) => lc3_input::tell_unopened(&rt, path, error),
    }
}
