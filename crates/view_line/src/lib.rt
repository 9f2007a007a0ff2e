// The line of a place in a source, as text for a terminal: the line, or a window of a long one, and carets under the place.
#![tactic(auto)]

ghost use Rattle.std.specs.Prelude.{◌≡◌, map, ◌≤◌, length};
ghost use Rattle.view_text.specs.Put.{Put};
ghost use Rattle.view_line.specs.Shown.{shown_byte, under_byte, window_start, window_stop, between, shown_line, carets, caret_line, underlined};

use view_text::{put, put_byte};

// The byte behind the last character that is shown.
const DEL: u8 = 127;

// A byte as it is shown: in one column, but for a tab.
fn shown(b: u8) -> u8
    ensures { result ≡ shown_byte b }
{
    if (b == b'\t') | ((b' ' <= b) & (b < DEL)) {
        return b;
    }
    b'?'
}

// Bytes as they are shown.
fn put_shown(out: &mut [u8], at: usize, text: &[u8]) -> usize
    ensures { Put out.old out.new at result (map shown_byte text.now) }
{
    let mut end = at;
    for b in text {
        end = put_byte(out, end, shown(*b));
    }
    end
}

// What stands under a byte: a tab under a tab, so that both lines keep step, and else this mark.
fn under(mark: u8, b: u8) -> u8
    ensures { result ≡ under_byte mark b }
{
    if b == b'\t' {
        return b;
    }
    mark
}

// The marks under bytes.
fn put_under(out: &mut [u8], at: usize, mark: u8, text: &[u8]) -> usize
    ensures { Put out.old out.new at result (map (under_byte mark) text.now) }
{
    let mut end = at;
    for b in text {
        end = put_byte(out, end, under(mark, *b));
    }
    end
}

// How much of a long line is shown, and how much of it before the place at most.
const SHOWN_BYTES: usize = 100;

const BEFORE_PLACE: usize = 60;

// Where what is shown of a line begins.
fn window_start(first: usize, last: usize, place: usize) -> usize
    requires { first ≤ place }
    ensures { (result ≡ window_start first last place) × (result ≤ place) }
{
    if last.saturating_sub(first) <= SHOWN_BYTES {
        return first;
    }
    first + (place - first).saturating_sub(BEFORE_PLACE)
}

// Where it ends.
fn window_stop(from: usize, last: usize) -> usize
    ensures { result ≡ window_stop from last }
{
    from + last.saturating_sub(from).min(SHOWN_BYTES)
}

// A text that stands for bytes which are left out between two places; nothing where there are none.
fn put_between(out: &mut [u8], at: usize, a: usize, b: usize, text: &[u8]) -> usize
    ensures { Put out.old out.new at result (between a b text.now) }
{
    if a < b {
        return put(out, at, text);
    }
    at
}

// A line from `first` to `last`, of which the bytes between `from` and `to` are shown.
fn put_line(
    out: &mut [u8],
    at: usize,
    src: &[u8],
    first: usize,
    from: usize,
    to: usize,
    last: usize,
) -> usize
    requires { (from ≤ to) × (to ≤ length src.now) }
    ensures { Put out.old out.new at result (shown_line src.now first from to last) }
{
    let a = put(out, at, b"    ");
    let b = put_between(out, a, first, from, b"...");
    let c = put_shown(out, b, &src[from..to]);
    let d = put_between(out, c, to, last, b"...");
    put_byte(out, d, b'\n')
}

// Carets under the bytes of a place; one where there are none.
fn put_carets(out: &mut [u8], at: usize, src: &[u8], place: usize, stop: usize) -> usize
    requires { stop ≤ length src.now }
    ensures { Put out.old out.new at result (carets src.now place stop) }
{
    if place < stop {
        return put_under(out, at, b'^', &src[place..stop]);
    }
    put_byte(out, at, b'^')
}

// The line of carets, under a line that begins at `first` and is shown from `from` on.
fn put_caret_line(
    out: &mut [u8],
    at: usize,
    src: &[u8],
    first: usize,
    from: usize,
    place: usize,
    stop: usize,
) -> usize
    requires { (from ≤ place) × (place ≤ length src.now) × (stop ≤ length src.now) }
    ensures { Put out.old out.new at result (caret_line src.now first from place stop) }
{
    let margin = put(out, at, b"    ");
    let b = put_between(out, margin, first, from, b"   ");
    let c = put_under(out, b, b' ', &src[from..place]);
    let d = put_carets(out, c, src, place, stop);
    put_byte(out, d, b'\n')
}

// The line of a place, and carets under the place: one at least, and none behind what is shown.
pub fn put_underlined(out: &mut [u8], at: usize, src: &[u8], place: usize, end: usize) -> usize
    requires { place ≤ length src.now }
    ensures { Put out.old out.new at result (underlined src.now place end) }
{
    let first = view_places::line_start(src, place);
    let last = view_places::line_stop(src, first);
    let from = window_start(first, last, place);
    let to = window_stop(from, last);
    let next = put_line(out, at, src, first, from, to, last);
    put_caret_line(out, next, src, first, from, place, end.min(to))
}
