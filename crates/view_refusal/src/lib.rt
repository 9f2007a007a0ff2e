// A refusal as a person reads it, as text in a lent buffer: the file, the line and the column, its number and name, what it means, and each of its places underlined, with what was due there.
#![tactic(auto)]

ghost use Rattle.std.specs.Prelude.{◌≡◌, ◌≤◌, length};
ghost use Rattle.rules.specs.Answers.{refusal_name};
ghost use Rattle.rules.specs.Tokens.{while};
ghost use Rattle.base_text.specs.Runs.{in_class};
ghost use Rattle.view_text.specs.Put.{Put};
ghost use Rattle.view_refusal.specs.Meanings.{meaning, meaning_row};
ghost use Rattle.view_refusal.specs.Refusals.{title, position_text, end_words, heading_text, placeless_text, placed, second_text, placed_text, refusal_text};

use base_text::Class;
use view_text::{put, put_byte, put_decimal};

// How wide the meanings are, the line feed behind each with them, and how many numbers have a row.
const MEANING_WIDTH: usize = 67;

const NUMBERS: usize = 52;

// What refusals mean in this program by their numbers: each up to its line feed, filled up with spaces; a number that is none has no meaning.
const MEANINGS: [[u8; MEANING_WIDTH]; NUMBERS] = [
    *b"\n                                                                  ",
    *b"a number above 65535\n                                              ",
    *b"a number below -32768\n                                             ",
    *b"a digit that is not hexadecimal\n                                   ",
    *b"a digit that is not decimal\n                                       ",
    *b"a hexadecimal number without digits\n                               ",
    *b"a decimal number without digits\n                                   ",
    *b"a string that is not closed on its line\n                           ",
    *b"a string of more than 65,534 characters\n                           ",
    *b"no such register, they are R0 to R7\n                               ",
    *b"a character that begins no token\n                                  ",
    *b"the source is longer than this program takes\n                      ",
    *b"a byte that is not ASCII\n                                          ",
    *b"this cannot stand here\n                                            ",
    *b"the operand that is due here is missing or of another kind\n        ",
    *b"a number that does not fit this operand\n                           ",
    *b"a name of more than 64 characters\n                                 ",
    *b"\n                                                                  ",
    *b"\n                                                                  ",
    *b"\n                                                                  ",
    *b"a label outside .orig and .end has no address\n                     ",
    *b"a statement outside .orig and .end has no address\n                 ",
    *b"an .orig without its .end\n                                         ",
    *b"an .end without its .orig\n                                         ",
    *b"an .orig inside a block\n                                           ",
    *b"one label at two addresses\n                                        ",
    *b"the block runs past xFFFF\n                                         ",
    *b"the block runs into the addresses of devices, xFE00 and above\n     ",
    *b"two blocks share an address\n                                       ",
    *b"the label is too far away for this instruction\n                    ",
    *b"an external label has no address here, so there is no offset to it\n",
    *b"no label has this name\n                                            ",
    *b"\n                                                                  ",
    *b"\n                                                                  ",
    *b"\n                                                                  ",
    *b"\n                                                                  ",
    *b"\n                                                                  ",
    *b"\n                                                                  ",
    *b"\n                                                                  ",
    *b"\n                                                                  ",
    *b"more than 1,024 labels, 1,024 relocations or 64 blocks\n            ",
    *b"more words than there is room for\n                                 ",
    *b"a lent buffer is too short\n                                        ",
    *b"the lent buffers hold no object\n                                   ",
    *b"\n                                                                  ",
    *b"\n                                                                  ",
    *b"\n                                                                  ",
    *b"\n                                                                  ",
    *b"\n                                                                  ",
    *b"\n                                                                  ",
    *b"the bytes are no stored object from this field on\n                 ",
    *b"the bytes do not fit\n                                              ",
];

// What a refusal means, as a row.
fn meaning_row(number: usize) -> [u8; MEANING_WIDTH]
    ensures { result ≡ meaning_row number }
{
    if number < NUMBERS {
        return MEANINGS[number];
    }
    MEANINGS[0]
}

// The run of a class that a row begins with.
fn put_run(out: &mut [u8], at: usize, row: &[u8], class: Class) -> usize
    ensures { Put out.old out.new at result (while (in_class class) row.now) }
{
    let end = base_text::run_end(row, 0, class);
    put(out, at, &row[0..end])
}

// A refusal's name in document 01's table.
fn put_name(out: &mut [u8], at: usize, number: u16) -> usize
    ensures { Put out.old out.new at result (refusal_name number) }
{
    let row = view_places::refusal_name(usize::from(number));
    put_run(out, at, &row, Class::Word)
}

// What it means.
fn put_meaning(out: &mut [u8], at: usize, number: u16) -> usize
    ensures { Put out.old out.new at result (meaning number) }
{
    let row = meaning_row(usize::from(number));
    put_run(out, at, &row, Class::Line)
}

// Its number, its name and what it means.
pub fn put_title(out: &mut [u8], at: usize, number: u16) -> usize
    ensures { Put out.old out.new at result (title number) }
{
    let a = put(out, at, b"REFUSED ");
    let b = put_decimal(out, a, u64::from(number));
    let c = put_byte(out, b, b' ');
    let d = put_name(out, c, number);
    let e = put(out, d, b": ");
    put_meaning(out, e, number)
}

// The file, the line and the column of a place, each before a colon.
fn put_position(out: &mut [u8], at: usize, file: &[u8], src: &[u8], place: usize) -> usize
    requires { (place ≤ length src.now) × (length src.now ≤ 262144) }
    ensures { Put out.old out.new at result (position_text file.now src.now place) }
{
    let feeds = view_places::line_feeds(&src[0..place]);
    let since = view_places::bytes_since(&src[0..place]);
    let a = put(out, at, file);
    let b = put_byte(out, a, b':');
    let c = put_decimal(out, b, (feeds + 1) as u64);
    let d = put_byte(out, c, b':');
    let e = put_decimal(out, d, (since + 1) as u64);
    put(out, e, b": ")
}

// Words for a place where nothing stands: the end of the source, or of a line.
fn put_end(out: &mut [u8], at: usize, src: &[u8], place: usize) -> usize
    requires { place ≤ length src.now }
    ensures { Put out.old out.new at result (end_words src.now place) }
{
    if place == src.len() {
        return put(out, at, b" (the end of the source)");
    }
    let first = view_places::line_start(src, place);
    if view_places::line_stop(src, first) <= place {
        return put(out, at, b" (the end of the line)");
    }
    at
}

// The first line of a refusal with a place.
fn put_heading(
    out: &mut [u8],
    at: usize,
    file: &[u8],
    src: &[u8],
    number: u16,
    place: usize,
) -> usize
    requires { (place ≤ length src.now) × (length src.now ≤ 262144) }
    ensures { Put out.old out.new at result (heading_text file.now src.now number place) }
{
    let a = put_position(out, at, file, src, place);
    let b = put_title(out, a, number);
    let c = put_end(out, b, src, place);
    put_byte(out, c, b'\n')
}

// A refusal with no place: one line.
pub fn put_placeless(out: &mut [u8], at: usize, file: &[u8], number: u16) -> usize
    ensures { Put out.old out.new at result (placeless_text file.now number) }
{
    let a = put(out, at, file);
    let b = put(out, a, b": ");
    let c = put_title(out, b, number);
    put_byte(out, c, b'\n')
}

// A place that can be shown: it ends behind 0 and begins in the source, which is one that is taken.
fn is_placed(src: &[u8], start: usize, end: usize) -> bool
    ensures { result ≡ placed src.now start end }
{
    (0 < end) & (start <= src.len()) & (src.len() <= base_capacities::SOURCE_BYTES)
}

// The second place, where there is one.
fn put_second(out: &mut [u8], at: usize, file: &[u8], src: &[u8], start: usize, end: usize) -> usize
    ensures { Put out.old out.new at result (second_text file.now src.now start end) }
{
    if is_placed(src, start, end) {
        let a = put_position(out, at, file, src, start);
        let b = put(out, a, b"and here\n");
        return view_line::put_underlined(out, b, src, start, end);
    }
    at
}

// A refusal with a place: a note where something else was due there, and the second place where there is one.
fn put_placed(
    out: &mut [u8],
    at: usize,
    file: &[u8],
    src: &[u8],
    number: u16,
    start: usize,
    end: usize,
    start2: usize,
    end2: usize,
) -> usize
    requires { (start ≤ length src.now) × (length src.now ≤ 262144) }
    ensures { Put out.old out.new at result (placed_text file.now src.now number start end start2 end2) }
{
    let a = put_heading(out, at, file, src, number, start);
    let b = view_line::put_underlined(out, a, src, start, end);
    let c = view_note::put_note(out, b, src, number, start);
    put_second(out, c, file, src, start2, end2)
}

// A refusal of this source, of the file with this name. 11 is refused as a whole, and so is what has no place.
pub fn put_refusal(
    out: &mut [u8],
    at: usize,
    file: &[u8],
    src: &[u8],
    number: u16,
    start: usize,
    end: usize,
    start2: usize,
    end2: usize,
) -> usize
    ensures { Put out.old out.new at result (refusal_text file.now src.now number start end start2 end2) }
{
    if number == base_refusals::SOURCE_TOO_LONG {
        return put_placeless(out, at, file, number);
    }
    if is_placed(src, start, end) {
        return put_placed(out, at, file, src, number, start, end, start2, end2);
    }
    put_placeless(out, at, file, number)
}
