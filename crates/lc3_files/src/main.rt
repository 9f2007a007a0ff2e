// The program behind ./lc3 assemble, link, check, list --object and list --explain: it works on the files that its arguments name. An object goes to standard output as stored bytes; what
// ./lc3 answers with is told on descriptor 3.
#![tactic(auto)]

mod assembling;
mod checking;
mod explaining;
mod linking;
mod listing;
mod named;
mod telling;

use named::PATH_BYTES;
use std::cmp::Ordering;

// How long the word is at most that says what is to be done.
const WORD_BYTES: usize = 32;

// The argument that says what is to be done, and that of the first file.
const COMMAND: usize = 1;

const FIRST_FILE: usize = 2;

fn is(word: &[u8], other: &[u8]) -> bool {
    match base_text::compare_bytes(word, other) {
        Ordering::Equal => true,
        Ordering::Less => false,
        Ordering::Greater => false,
    }
}

// One file, by what is to be done with it.
fn run_on_file(rt: &HostRuntime, word: &[u8], path: &[u8]) -> u8 {
    if is(word, b"assemble") {
        return assembling::assemble(rt, path);
    }
    if is(word, b"list") {
        return listing::list(rt, path);
    }
    if is(word, b"explain") {
        return explaining::explain_source(rt, path);
    }
    if is(word, b"explain-object") {
        return explaining::explain_object(rt, path);
    }
    telling::FAILED
}

// The file that an argument names.
fn run_on_argument(rt: &HostRuntime, word: &[u8], i: usize) -> u8 {
    let mut path = [0u8; PATH_BYTES];
    let n = named::argument(rt, i, &mut path);
    run_on_file(rt, word, &path[..n])
}

// The files that the arguments up to the last name: the worst answer.
fn run_on_all(rt: &HostRuntime, word: &[u8], end: usize) -> u8 {
    let mut worst = telling::ACCEPTED;
    for i in FIRST_FILE..end {
        // The worse of two answers is the greater byte.
        worst = worst.max(run_on_argument(rt, word, i));
    }
    worst
}

fn run(rt: &HostRuntime, word: &[u8]) -> u8 {
    if is(word, b"link") {
        return linking::link_files(rt, FIRST_FILE, named::argument_count(rt));
    }
    if is(word, b"check") {
        return checking::check_all(rt, FIRST_FILE, named::argument_count(rt), false);
    }
    run_on_all(rt, word, named::argument_count(rt))
}

fn main(rt: HostRuntime) {
    let mut word = [0u8; WORD_BYTES];
    let n = named::argument(&rt, COMMAND, &mut word);
    telling::tell_status(run(&rt, &word[..n]));
}
