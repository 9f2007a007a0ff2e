// The lines of a listing, made and written one behind the other.
#![tactic(auto)]

ghost use Rattle.std.specs.Prelude.{◌≡◌, ◌++◌, ◌+◌, ◌<◌, ◌≤◌, length};
ghost use Rattle.rules.specs.Base.{bytes};
ghost use Rattle.rules.specs.Buffers.{cell_of};
ghost use Rattle.rules.specs.Listing.{hex_digit, hex4, lf};
ghost use Rattle.list_lines.specs.Appended.{Appended};
ghost use Rattle.list_lines.specs.Lines.{cell_line, cell_lines, head_line};

// Ten below A: what a digit from ten on is added to.
const BEFORE_LETTERS: u8 = b'A' - 10;

// How long a word's line is, and a block's first.
pub const WORD_LINE_BYTES: usize = 10;

pub const BLOCK_LINE_BYTES: usize = 16;

// A hexadecimal digit.
fn hex_digit(n: u16) -> u8
    requires { n < 16 }
    ensures { result ≡ hex_digit n }
{
    if n < 10 {
        return b'0' + n as u8;
    }
    BEFORE_LETTERS + n as u8
}

// Four hexadecimal digits.
pub fn hex4_of(v: u16) -> [u8; 4]
    ensures { result ≡ hex4 v }
{
    [
        hex_digit(v / 0x1000),
        hex_digit(v / 0x100 % 0x10),
        hex_digit(v / 0x10 % 0x10),
        hex_digit(v % 0x10),
    ]
}

// A line of a word: its address and its four digits.
pub fn word_line(address: u16, word: u16) -> [u8; WORD_LINE_BYTES]
    ensures { result ≡ hex4 address ++ bytes " " ++ hex4 word ++ lf }
{
    let a = hex4_of(address);
    let w = hex4_of(word);
    [a[0], a[1], a[2], a[3], b' ', w[0], w[1], w[2], w[3], b'\n']
}

// A word's line by its word and mark: an unset word prints as 0000.
pub fn cell_line(address: u16, word: u16, mark: u8) -> [u8; WORD_LINE_BYTES]
    ensures { result ≡ cell_line (address, cell_of word mark) }
{
    if mark == base_capacities::UNSET {
        return word_line(address, 0);
    }
    word_line(address, word)
}

// A block's first line.
pub fn block_line(start: u16, size: u16) -> [u8; BLOCK_LINE_BYTES]
    ensures { result ≡ head_line start size }
{
    let a = hex4_of(start);
    let n = hex4_of(size);
    [
        b'B', b'L', b'O', b'C', b'K', b' ', a[0], a[1], a[2], a[3], b' ', n[0], n[1], n[2], n[3],
        b'\n',
    ]
}

// A text at a place; the place behind it.
pub fn put_text(out: &mut [u8], at: usize, text: &[u8]) -> usize
    requires { at + length text.now ≤ length out.old }
    ensures { Appended out.old out.new at result text.now }
{
    base_buffers::put(out, at, text);
    at + text.len()
}

// A line that ends with a name.
pub fn put_line(out: &mut [u8], at: usize, front: &[u8], name: &[u8]) -> usize
    requires { at + (length front.now + (length name.now + 1)) ≤ length out.old }
    ensures { Appended out.old out.new at result ((front.now ++ name.now) ++ lf) }
{
    let a = put_text(out, at, front);
    let b = put_text(out, a, name);
    put_text(out, b, b"\n")
}

// The lines of a block's words.
pub fn put_cells(out: &mut [u8], at: usize, start: u16, words: &[u16], marks: &[u8]) -> usize
    requires words_bound { start + length words.now ≤ 65024 }
    requires words_len { length words.now ≡ length marks.now }
    requires words_in_bounds { at + length (cell_lines start words.now marks.now (length words.now)) ≤ length out.old }
    ensures { Appended out.old out.new at result (cell_lines start words.now marks.now (length words.now)) }
{
    let mut end = at;
    let mut address = start;
    for (word, mark) in words.iter().zip(marks) {
        let line = cell_line(address, *word, *mark);
        end = put_text(out, end, &line);
        address += 1;
    }
    end
}
