// What the programs share: a file or standard input read into a lent buffer, an error told apart from its end, a file told that cannot be opened, and the byte by which an answer is told to
// whoever runs ./lc3.
#![tactic(auto)]

ghost use Rattle.std.specs.Prelude.{◌≡◌};
ghost use Rattle.io.specs.Counts.{IsPrefixLen};
ghost use Rattle.lc3_input.specs.Held.{Held, first_of, status_of};

use std::fs::{File, Files};
use std::io::{Eprint, Error, Input, Read};

// Why an input is not there whole: it is longer than the buffer, or it could not be read to its end.
#[derive(Clone, Copy)]
pub enum InputErr {
    Longer,
    Failed,
}

// The descriptors that a program writes to.
pub const STDOUT_FILENO: i32 = 1;

pub const STDERR_FILENO: i32 = 2;

// Where ./lc3 waits for the answer.
pub const STATUS_FILENO: i32 = 3;

// The answers: accepted, refused, could not be done.
pub const ACCEPTED: u8 = b'0';

pub const REFUSED: u8 = b'1';

pub const FAILED: u8 = b'2';

// Whether an input is accepted, as the byte that tells it.
pub fn status_of(accepted: bool) -> u8
    ensures { result ≡ status_of accepted }
{
    if accepted {
        return ACCEPTED;
    }
    REFUSED
}

// An open file into the buffer, until it is full, the input ends or a read fails: how many bytes it put there.
pub fn fill<R: Read>(file: &mut R, buffer: &mut [u8]) -> usize
    ensures { IsPrefixLen result buffer.new }
{
    let mut done = 0;
    // A while: each read says how much it put there.
    while done < buffer.len() {
        match file.read(&mut buffer[done..]) {
            Ok(n) => {
                if n == 0 {
                    return done;
                }
                done += n;
            }
            Err(_) => {
                return done;
            }
        }
    }
    done
}

// An open file to its end: how many bytes it put at the front of the buffer. After what was read one more byte is asked for: there is none at the end of the input, one where it is longer than the buffer, and an error where reading failed.
pub fn read_input<R: Read>(file: &mut R, buffer: &mut [u8]) -> Result<usize, InputErr>
    ensures { Held buffer.new result }
{
    let size = fill(file, buffer);
    let mut more = [0u8; 1];
    match file.read(&mut more) {
        Ok(next) => {
            if next == 0 {
                return Ok(size);
            }
            if size == buffer.len() {
                return Err(InputErr::Longer);
            }
            Err(InputErr::Failed)
        }
        Err(_) => Err(InputErr::Failed),
    }
}

// A file by its name, which is UTF-8; any other names no file that can be read. `-` is standard input.
pub fn read_file<R: Files + Input>(
    rt: &R,
    path: &[u8],
    buffer: &mut [u8],
) -> Result<usize, InputErr>
    ensures { Held buffer.new result }
{
    if path == b"-".as_slice() {
        return read_input(&mut rt.reader(), buffer);
    }
    match str::from_utf8(path) {
        Ok(name) => read_named(rt, name, buffer),
        Err(_) => Err(InputErr::Failed),
    }
}

fn read_named<R: Files>(rt: &R, name: &str, buffer: &mut [u8]) -> Result<usize, InputErr>
    ensures { Held buffer.new result }
{
    match File::open(rt, name) {
        Ok(mut file) => read_input(&mut file, buffer),
        Err(_) => Err(InputErr::Failed),
    }
}

// Tells on standard error that a file could not be opened, and why.
pub fn tell_unopened<R: Eprint>(rt: &R, path: &str, error: Error) {
    let _ = eprintln!(rt; "{path}: {error}");
}

// The first n bytes, as far as they are there.
pub fn front(buffer: &[u8], n: usize) -> &[u8]
    ensures { result.now ≡ first_of n buffer.now }
{
    &buffer[..n.min(buffer.len())]
}
