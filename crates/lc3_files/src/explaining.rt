// Explaining for a person: a source assembled or a stored object loaded, and each word of it shown, or its refusal, on standard output.
use crate::named::FILE_BYTES;
use crate::{named, telling};
use base_refusals::SOURCE_TOO_LONG;
use lc3_input::{InputErr, STDOUT_FILENO, front};
use list_print::{SOURCE_BYTES, WORDS};
use object::Counts;
use object_answer::counts_of;
use stored::STORED_BYTES;
use view_object::PIECE_BYTES;

// Piece p of what is shown of an object; whether it was written.
fn show_piece(
    c: Counts,
    blocks: &[u16],
    words: &[u16],
    marks: &[u8],
    labels: &[u32],
    relocations: &[u32],
    names: &[u8],
    p: usize,
    text: &mut [u8],
) -> bool {
    let n = view_object::put_piece(c, blocks, words, marks, labels, relocations, names, p, text);
    io::write_all(STDOUT_FILENO, front(text, n))
}

// All pieces of what is shown of an object.
fn show_object(
    c: Counts,
    blocks: &[u16],
    words: &[u16],
    marks: &[u8],
    labels: &[u32],
    relocations: &[u32],
    names: &[u8],
) -> u8 {
    let mut text = [0u8; PIECE_BYTES];
    for p in 0..view_object::pieces(c) {
        if !show_piece(
            c,
            blocks,
            words,
            marks,
            labels,
            relocations,
            names,
            p,
            &mut text,
        ) {
            return telling::FAILED;
        }
    }
    telling::ACCEPTED
}

// A stored object, loaded into as many words as the listing program lends.
fn show_stored(path: &[u8], bytes: &[u8]) -> u8 {
    let mut blocks = [0u16; object::BLOCK_ROOM];
    let mut words = [0u16; WORDS];
    let mut marks = [0u8; WORDS];
    let mut labels = [0u32; object::LABEL_ROOM];
    let mut relocations = [0u32; object::RELOCATION_ROOM];
    let mut names = [0u8; object::NAME_ROOM];
    let answer = stored_load::load(
        bytes,
        &mut blocks,
        &mut words,
        &mut marks,
        &mut labels,
        &mut relocations,
        &mut names,
    );
    if answer.number == 0 {
        return show_object(
            counts_of(answer),
            &blocks,
            &words,
            &marks,
            &labels,
            &relocations,
            &names,
        );
    }
    telling::tell_unloaded(STDOUT_FILENO, path, bytes, answer)
}

// A source, with these buffers: its object as stored bytes, which are then shown.
fn show_with(
    path: &[u8],
    src: &[u8],
    words: &mut [u16; WORDS],
    marks: &mut [u8; WORDS],
    bytes: &mut [u8; STORED_BYTES],
) -> u8 {
    match lc3_assemble::assemble_stored(src, words, marks, bytes) {
        Ok(n) => show_stored(path, front(bytes, n)),
        Err(answer) => telling::tell_refusal(STDOUT_FILENO, path, src, answer),
    }
}

// A source, with as many words.
fn show_source(path: &[u8], src: &[u8]) -> u8 {
    let mut words = [0u16; WORDS];
    let mut marks = [0u8; WORDS];
    let mut bytes = [0u8; STORED_BYTES];
    show_with(path, src, &mut words, &mut marks, &mut bytes)
}

// A file of source, read into this buffer.
fn source_read(rt: &HostRuntime, path: &[u8], source: &mut [u8; SOURCE_BYTES]) -> u8 {
    match lc3_input::read_file(rt, path, source) {
        Ok(n) => show_source(path, front(source, n)),
        Err(InputErr::Longer) => telling::tell_placeless(STDOUT_FILENO, path, SOURCE_TOO_LONG),
        Err(InputErr::Failed) => telling::tell_unread(path),
    }
}

// A file of source.
pub fn explain_source(rt: &HostRuntime, path: &[u8]) -> u8 {
    let mut source = [0u8; SOURCE_BYTES];
    source_read(rt, path, &mut source)
}

// A file of a stored object, read into this buffer.
fn object_read(rt: &HostRuntime, path: &[u8], bytes: &mut [u8; FILE_BYTES]) -> u8 {
    match named::read_stored(rt, path, bytes) {
        Some(n) => show_stored(path, front(bytes, n)),
        None => telling::FAILED,
    }
}

// A file of a stored object.
pub fn explain_object(rt: &HostRuntime, path: &[u8]) -> u8 {
    let mut bytes = [0u8; FILE_BYTES];
    object_read(rt, path, &mut bytes)
}
