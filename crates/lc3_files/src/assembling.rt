// Assembling a file: its object as stored bytes on standard output, or its refusal on standard error.
use crate::telling;
use base_capacities::{SOURCE_BYTES, WORDS};
use base_refusals::SOURCE_TOO_LONG;
use lc3_input::{InputErr, STDERR_FILENO, front};
use stored::STORED_BYTES;

// A source, with these buffers.
fn assemble_with(
    path: &[u8],
    src: &[u8],
    words: &mut [u16; WORDS],
    marks: &mut [u8; WORDS],
    bytes: &mut [u8; STORED_BYTES],
) -> u8 {
    match lc3_assemble::assemble_stored(src, words, marks, bytes) {
        Ok(n) => telling::write_out(front(bytes, n), telling::ACCEPTED),
        Err(answer) => telling::tell_refusal(STDERR_FILENO, path, src, answer),
    }
}

// A source, with all the words that an object can have.
fn assemble_source(path: &[u8], src: &[u8]) -> u8 {
    let mut words = [0u16; WORDS];
    let mut marks = [0u8; WORDS];
    let mut bytes = [0u8; STORED_BYTES];
    assemble_with(path, src, &mut words, &mut marks, &mut bytes)
}

// A file, read into this buffer.
fn assemble_read(rt: &HostRuntime, path: &[u8], source: &mut [u8; SOURCE_BYTES]) -> u8 {
    match lc3_input::read_file(rt, path, source) {
        Ok(n) => assemble_source(path, front(source, n)),
        Err(InputErr::Longer) => telling::tell_placeless(STDERR_FILENO, path, SOURCE_TOO_LONG),
        Err(InputErr::Failed) => telling::tell_unread(path),
    }
}

// A file.
pub fn assemble(rt: &HostRuntime, path: &[u8]) -> u8 {
    let mut source = [0u8; SOURCE_BYTES];
    assemble_read(rt, path, &mut source)
}
