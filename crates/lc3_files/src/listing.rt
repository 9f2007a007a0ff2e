// Listing a stored object on standard output, as the listing program lists a source.
use crate::named::FILE_BYTES;
use crate::{named, telling};
use lc3_input::front;
use list_print::LISTING_BYTES;

// The listing of stored bytes, in this buffer; only the line of a refusal begins with an R.
fn list_with(bytes: &[u8], text: &mut [u8; LISTING_BYTES]) -> u8 {
    let n = stored_list::list_stored(bytes, text);
    let status = lc3_input::status_of(text[0] != b'R');
    telling::write_out(front(text, n), status)
}

// The listing of stored bytes.
fn list_bytes(bytes: &[u8]) -> u8 {
    let mut text = [0u8; LISTING_BYTES];
    list_with(bytes, &mut text)
}

// A file, read into this buffer.
fn list_read(rt: &HostRuntime, path: &[u8], bytes: &mut [u8; FILE_BYTES]) -> u8 {
    match named::read_stored(rt, path, bytes) {
        Some(n) => list_bytes(front(bytes, n)),
        None => telling::FAILED,
    }
}

// A file.
pub fn list(rt: &HostRuntime, path: &[u8]) -> u8 {
    let mut bytes = [0u8; FILE_BYTES];
    list_read(rt, path, &mut bytes)
}
