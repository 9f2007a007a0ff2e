// The files that arguments name: their names, and the stored bytes that they hold.
ghost use Rattle.io.specs.Counts.{IsPrefixLen};

use lc3_input::InputErr;
use std::env::{Env, FillError};
use stored::STORED_BYTES;

// How long a file's name is at most.
pub const PATH_BYTES: usize = 4096;

// Room for a stored file: one byte more than any object takes, so that a longer file is refused as its front is.
pub const FILE_BYTES: usize = STORED_BYTES + 1;

// The file's bytes into a buffer, and how many they are: of a longer file as many as there is room for, and none of one that cannot be read.
pub fn read_stored(rt: &HostRuntime, path: &[u8], bytes: &mut [u8]) -> Option<usize> {
    match lc3_input::read_file(rt, path, bytes) {
        Ok(n) => Some(n),
        Err(InputErr::Longer) => Some(bytes.len()),
        Err(InputErr::Failed) => {
            crate::telling::tell_unread(path);
            None
        }
    }
}

// The argument at a place into a buffer: its length, or 0 where there is none or it is longer than the buffer.
pub fn argument(rt: &HostRuntime, i: usize, buffer: &mut [u8]) -> usize
    ensures { IsPrefixLen result buffer.new }
{
    match rt.arg(i, buffer) {
        Ok(n) => n,
        Err(_) => 0,
    }
}

// Whether there is an argument at a place.
fn is_argument(rt: &HostRuntime, i: usize) -> bool {
    let mut byte = [0u8; 1];
    match rt.arg(i, &mut byte) {
        Ok(_) => true,
        Err(FillError::TooLong) => true,
        Err(FillError::NotPresent) => false,
    }
}

// How many arguments there are, the program's own name among them.
pub fn argument_count(rt: &HostRuntime) -> usize {
    for i in 0..usize::MAX {
        if !is_argument(rt, i) {
            return i;
        }
    }
    usize::MAX
}
