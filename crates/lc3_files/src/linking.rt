// Linking files: the stored objects that a list of arguments names, linked one after another; the result goes to standard output as stored bytes. Where they cannot be linked, the two files
// that stand in each other's way are named.
use crate::named::{FILE_BYTES, PATH_BYTES};
use crate::{checking, named, telling};
use base_capacities::NAME_BYTES;
use lc3_input::{STDERR_FILENO, front};
use lc3_link::Linked;
use view_text::put;

// Room for the names of two files.
const PAIR_BYTES: usize = 2 * PATH_BYTES + 8;

// A file, read into the buffer `second`, linked to what stands at the front of the bytes.
fn link_read(
    rt: &HostRuntime,
    bytes: &mut [u8],
    size: usize,
    path: &[u8],
    second: &mut [u8; FILE_BYTES],
    name: &mut [u8],
) -> Linked {
    match named::read_stored(rt, path, second) {
        Some(k) => lc3_link::link_stored(bytes, size, front(second, k), name),
        None => Linked {
            number: base_refusals::BAD_FIELD,
            size: 0,
            named: 0,
        },
    }
}

// A file linked to what stands at the front of the bytes.
fn link_file(
    rt: &HostRuntime,
    bytes: &mut [u8],
    size: usize,
    path: &[u8],
    name: &mut [u8],
) -> Linked {
    let mut second = [0u8; FILE_BYTES];
    link_read(rt, bytes, size, path, &mut second, name)
}

// The file of an argument linked to what stands at the front of the bytes.
fn link_argument(
    rt: &HostRuntime,
    bytes: &mut [u8],
    size: usize,
    i: usize,
    name: &mut [u8],
) -> Linked {
    let mut path = [0u8; PATH_BYTES];
    let n = named::argument(rt, i, &mut path);
    link_file(rt, bytes, size, &path[..n], name)
}

// The size of the stored object of an argument, read to the front of the bytes; the answer of one that cannot be read.
fn read_argument(rt: &HostRuntime, bytes: &mut [u8], i: usize) -> Result<usize, u8> {
    let mut path = [0u8; PATH_BYTES];
    let n = named::argument(rt, i, &mut path);
    named::read_stored(rt, &path[..n], bytes).ok_or(telling::FAILED)
}

// Tells that two files cannot be linked, and the name that stands in the way, if it is a name.
fn tell_pair(rt: &HostRuntime, j: usize, i: usize, number: u16, name: &[u8]) -> u8 {
    let mut first = [0u8; PATH_BYTES];
    let a = named::argument(rt, j, &mut first);
    let mut second = [0u8; PATH_BYTES];
    let b = named::argument(rt, i, &mut second);
    let mut pair = [0u8; PAIR_BYTES];
    let c = put(&mut pair, 0, &first[..a]);
    let d = put(&mut pair, c, b" and ");
    let e = put(&mut pair, d, &second[..b]);
    let status = telling::tell_placeless(STDERR_FILENO, front(&pair, e), number);
    if name.len() == 0 {
        return status;
    }
    io::write_all(STDERR_FILENO, b"    ");
    io::write_all(STDERR_FILENO, name);
    io::write_all(STDERR_FILENO, b"\n");
    status
}

// Whether the files of two arguments by themselves, linked in this buffer, are refused with this number; then it is told.
fn blame_with(
    rt: &HostRuntime,
    bytes: &mut [u8; FILE_BYTES],
    j: usize,
    i: usize,
    number: u16,
) -> bool {
    let mut name = [0u8; NAME_BYTES];
    match read_argument(rt, bytes, j) {
        Ok(size) => {
            let linked = link_argument(rt, bytes, size, i, &mut name);
            if linked.number == number {
                tell_pair(rt, j, i, number, front(&name, linked.named));
                return true;
            }
            false
        }
        Err(_) => false,
    }
}

fn blame_pair(rt: &HostRuntime, j: usize, i: usize, number: u16) -> bool {
    let mut bytes = [0u8; FILE_BYTES];
    blame_with(rt, &mut bytes, j, i, number)
}

// Tells why the file of an argument cannot be linked to those before it: which of them stands in its way; 40 and 41 are of all together.
fn blame(rt: &HostRuntime, first: usize, i: usize, number: u16) -> u8 {
    for j in first..i {
        if blame_pair(rt, j, i, number) {
            return telling::REFUSED;
        }
    }
    telling::tell_placeless(STDERR_FILENO, b"the files together", number)
}

// The file of an argument linked to those before it, whose link stands at the front of the bytes: the size of the result, or the answer that this is refused.
fn link_next(
    rt: &HostRuntime,
    bytes: &mut [u8],
    size: usize,
    first: usize,
    i: usize,
) -> Result<usize, u8> {
    let mut name = [0u8; NAME_BYTES];
    let linked = link_argument(rt, bytes, size, i, &mut name);
    if linked.number == 0 {
        return Ok(linked.size);
    }
    Err(blame(rt, first, i, linked.number))
}

// The rest of a list, linked to its first file; the result goes to standard output.
fn link_rest(rt: &HostRuntime, bytes: &mut [u8], start: usize, first: usize, end: usize) -> u8 {
    let mut size = start;
    for i in first.saturating_add(1)..end {
        match link_next(rt, bytes, size, first, i) {
            Ok(n) => size = n,
            Err(status) => return status,
        }
    }
    telling::write_out(front(bytes, size), telling::ACCEPTED)
}

// The files of the arguments from one up to another, linked in this buffer.
fn link_with(rt: &HostRuntime, bytes: &mut [u8; FILE_BYTES], first: usize, end: usize) -> u8 {
    match read_argument(rt, bytes, first) {
        Ok(size) => link_rest(rt, bytes, size, first, end),
        Err(status) => status,
    }
}

// The files of the arguments from one up to another. Each is checked first, so that every file that is no object is named.
pub fn link_files(rt: &HostRuntime, first: usize, end: usize) -> u8 {
    let worst = checking::check_all(rt, first, end, true);
    if worst != telling::ACCEPTED {
        return worst;
    }
    let mut bytes = [0u8; FILE_BYTES];
    link_with(rt, &mut bytes, first, end)
}
