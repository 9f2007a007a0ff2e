// The listing program: assembles standard input and prints the object's listing, or REFUSED and the number.
#![tactic(auto)]

ghost use Rattle.std.specs.Prelude.{◌≡◌, true, ◌≤◌, length};

use lc3_input::{InputErr, STATUS_FILENO, STDERR_FILENO, STDOUT_FILENO};
use list_print::{LISTING_BYTES, SOURCE_BYTES};
use std::io::Input;

// The first n bytes of a text on standard output; whether all were written.
fn print_front(text: &[u8], n: usize) -> bool
    requires { n ≤ length text.now }
{
    io::write_all(STDOUT_FILENO, &text[..n])
}

// Tells the answer to whoever runs the program, or that the listing was not written whole.
fn tell(written: bool, accepted: bool) {
    if written {
        io::write_all(STATUS_FILENO, &[lc3_input::status_of(accepted)]);
        return;
    }
    io::write_all(STDERR_FILENO, b"lc3: standard output cannot be written\n");
}

// A source listed in this buffer and on standard output, and whether it is accepted told: only the line of a refusal begins with an R.
fn print_with(src: &[u8], more: bool, text: &mut [u8; LISTING_BYTES])
    requires src_len_bound { length src.now ≤ 65536 }
    requires src_len { more ≡ true → length src.now ≡ 65536 }
{
    let n = list_print::list_source(src, more, text);
    let written = print_front(text, n);
    tell(written, text[0] != b'R');
}

// A source listed on standard output.
fn print_listing(src: &[u8], more: bool)
    requires src_len_bound { length src.now ≤ 65536 }
    requires src_len { more ≡ true → length src.now ≡ 65536 }
{
    let mut text = [0u8; LISTING_BYTES];
    print_with(src, more, &mut text);
}

// All of an input that the program holds.
fn print_whole(src: &[u8]) {
    if src.len() <= SOURCE_BYTES {
        print_listing(src, false);
    }
}

// The front of an input that is longer.
fn print_longer(src: &[u8]) {
    if src.len() == SOURCE_BYTES {
        print_listing(src, true);
    }
}

// Reads standard input and lists it.
fn list_input(rt: &HostRuntime, source: &mut [u8]) {
    match lc3_input::read_input(&mut rt.reader(), source) {
        Ok(size) => print_whole(lc3_input::front(source, size)),
        Err(InputErr::Longer) => print_longer(source),
        Err(InputErr::Failed) => {
            io::write_all(STDERR_FILENO, b"lc3: standard input cannot be read\n");
        }
    }
}

fn main(rt: HostRuntime) {
    let mut source = [0u8; SOURCE_BYTES];
    list_input(&rt, &mut source);
}
