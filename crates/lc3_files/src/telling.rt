// What the program tells: texts on standard output and standard error, and its answer to whoever runs it.
pub use lc3_input::{ACCEPTED, FAILED, REFUSED};
use lc3_input::{STDERR_FILENO, STDOUT_FILENO};
use object_answer::Answer;

// Room for what is told of a refusal: two places, each after a file's name.
const TEXT_BYTES: usize = 16384;

// Tells the answer.
pub fn tell_status(status: u8) {
    io::write_all(lc3_input::STATUS_FILENO, &[status]);
}

// Tells that a file could not be read.
pub fn tell_unread(path: &[u8]) -> u8 {
    io::write_all(STDERR_FILENO, b"lc3: ");
    io::write_all(STDERR_FILENO, path);
    io::write_all(STDERR_FILENO, b" cannot be read\n");
    FAILED
}

// Bytes on standard output; the answer `status` where all were written.
pub fn write_out(bytes: &[u8], status: u8) -> u8 {
    if io::write_all(STDOUT_FILENO, bytes) {
        return status;
    }
    io::write_all(STDERR_FILENO, b"lc3: standard output cannot be written\n");
    FAILED
}

// Bytes on a descriptor; the answer `REFUSED` where all were written.
fn refused_on(file: i32, text: &[u8]) -> u8 {
    if io::write_all(file, text) {
        return REFUSED;
    }
    FAILED
}

// Tells a refusal of a source, with its places.
pub fn tell_refusal(file: i32, path: &[u8], src: &[u8], answer: Answer) -> u8 {
    let mut text = [0u8; TEXT_BYTES];
    let n = view_refusal::put_refusal(
        &mut text,
        0,
        path,
        src,
        answer.number,
        answer.start,
        answer.end,
        answer.start2,
        answer.end2,
    );
    refused_on(file, lc3_input::front(&text, n))
}

// Tells a refusal that has no place in a source.
pub fn tell_placeless(file: i32, path: &[u8], number: u16) -> u8 {
    let mut text = [0u8; TEXT_BYTES];
    let n = view_refusal::put_placeless(&mut text, 0, path, number);
    refused_on(file, lc3_input::front(&text, n))
}

// Tells 50 with its offset and what stands there.
pub fn tell_broken(file: i32, path: &[u8], bytes: &[u8], offset: usize) -> u8 {
    let mut text = [0u8; TEXT_BYTES];
    let a = view_refusal::put_placeless(&mut text, 0, path, base_refusals::BAD_FIELD);
    let n = view_stored::put_broken(&mut text, a, bytes, offset);
    refused_on(file, lc3_input::front(&text, n))
}

// Tells why stored bytes were not loaded: 50, or one that has no place.
pub fn tell_unloaded(file: i32, path: &[u8], bytes: &[u8], answer: Answer) -> u8 {
    if answer.number == base_refusals::BAD_FIELD {
        return tell_broken(file, path, bytes, answer.start);
    }
    tell_placeless(file, path, answer.number)
}
