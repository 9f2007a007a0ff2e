// Checking files: whether each is the stored form of an object, and what the object has.
use crate::named::{FILE_BYTES, PATH_BYTES};
use crate::{named, telling};
use lc3_input::{STDERR_FILENO, STDOUT_FILENO, front};
use object_answer::{Answer, counts_of};

// Room for a line of counts.
const LINE_BYTES: usize = 128;

// What an object has, on standard output.
fn tell_counts(path: &[u8], answer: Answer) -> u8 {
    let mut line = [0u8; LINE_BYTES];
    let n = view_object::put_heading(&mut line, counts_of(answer));
    if io::write_all(STDOUT_FILENO, path) & io::write_all(STDOUT_FILENO, b": ") {
        return telling::write_out(front(&line, n), telling::ACCEPTED);
    }
    telling::FAILED
}

// Bytes of a file; nothing is said where they are accepted and nobody wants to know.
fn check_bytes(path: &[u8], bytes: &[u8], silent: bool) -> u8 {
    let answer = stored_check::check(bytes);
    if answer.number == 0 {
        if silent {
            return telling::ACCEPTED;
        }
        return tell_counts(path, answer);
    }
    telling::tell_unloaded(STDERR_FILENO, path, bytes, answer)
}

// A file, read into this buffer.
fn check_read(rt: &HostRuntime, path: &[u8], bytes: &mut [u8; FILE_BYTES], silent: bool) -> u8 {
    match named::read_stored(rt, path, bytes) {
        Some(n) => check_bytes(path, front(bytes, n), silent),
        None => telling::FAILED,
    }
}

// A file.
fn check_file(rt: &HostRuntime, path: &[u8], silent: bool) -> u8 {
    let mut bytes = [0u8; FILE_BYTES];
    check_read(rt, path, &mut bytes, silent)
}

// The file that an argument names.
pub fn check_argument(rt: &HostRuntime, i: usize, silent: bool) -> u8 {
    let mut path = [0u8; PATH_BYTES];
    let size = named::argument(rt, i, &mut path);
    check_file(rt, &path[..size], silent)
}

// The files of the arguments from one up to another: the worst answer.
pub fn check_all(rt: &HostRuntime, first: usize, end: usize, silent: bool) -> u8 {
    let mut worst = telling::ACCEPTED;
    for i in first..end {
        // The worse of two answers is the greater byte.
        worst = worst.max(check_argument(rt, i, silent));
    }
    worst
}
