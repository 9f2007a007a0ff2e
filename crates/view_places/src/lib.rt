// What a person is told of a refusal: its name, and the line and column of its place.
#![tactic(auto)]

ghost use Rattle.std.specs.Prelude.{◌≡◌, ◌≤◌, ◌<◌, length};
ghost use Rattle.view_places.specs.Lines.{feed, feeds, moved, since, line_start, ends_line, line_stop};
ghost use Rattle.view_places.specs.Names.{name_row};

// One for a line feed, none for another byte.
fn feed_of(b: u8) -> usize
    ensures { result ≡ feed b }
{
    if b == b'\n' {
        return 1;
    }
    0
}

// How many line feeds stand in these bytes. They are added up and not filtered, so that many are looked at at once.
pub fn line_feeds(before: &[u8]) -> usize
    ensures { result ≡ feeds before.now }
{
    let mut n = 0;
    for b in before {
        n += feed_of(*b);
    }
    n
}

// How many bytes stand behind the last line feed, one byte on.
fn one_on(k: usize, b: u8) -> usize
    requires { k < 18446744073709551615 }
    ensures { result ≡ moved k b }
{
    if b == b'\n' {
        return 0;
    }
    k + 1
}

// How many of these bytes stand behind their last line feed.
pub fn bytes_since(before: &[u8]) -> usize
    ensures value { result ≡ since before.now }
    ensures upper_bound { result ≤ length before.now }
{
    let mut k = 0;
    for b in before {
        k = one_on(k, *b);
    }
    k
}

// Where the line of a place begins.
pub fn line_start(src: &[u8], place: usize) -> usize
    requires { place ≤ length src.now }
    ensures { (result ≡ line_start src.now place) × (result ≤ place) }
{
    place - bytes_since(&src[0..place])
}

// A line ends before this place: LF or CR LF stands there.
fn ends_line(src: &[u8], i: usize) -> bool
    requires { i < length src.now }
    ensures { result ≡ ends_line src.now i }
{
    let b = base_text::byte_at(src, i);
    let next = base_text::byte_at(src, i + 1);
    (b == b'\n') | ((b == b'\r') & (next == b'\n'))
}

// Where the line ends that begins here: before LF or CR LF, or with the source.
pub fn line_stop(src: &[u8], first: usize) -> usize
    requires { first ≤ length src.now }
    ensures { (result ≡ line_stop src.now first) × (result ≤ length src.now) }
{
    for i in first..src.len() {
        if ends_line(src, i) {
            return i;
        }
    }
    src.len()
}

// How wide the names are, and how many numbers have a row.
const NAME_WIDTH: usize = 17;

const NUMBERS: usize = 52;

// The names of refusals by their numbers, filled up with spaces; a number that is none has spaces alone.
const NAMES: [[u8; NAME_WIDTH]; NUMBERS] = [
    *b"                 ",
    *b"DoesNotFitU16    ",
    *b"DoesNotFitI16    ",
    *b"InvalidHex       ",
    *b"InvalidNumeric   ",
    *b"InvalidHexEmpty  ",
    *b"InvalidDecEmpty  ",
    *b"UnclosedStrLit   ",
    *b"StrLitTooBig     ",
    *b"InvalidReg       ",
    *b"InvalidSymbol    ",
    *b"SourceTooLong    ",
    *b"NonAscii         ",
    *b"BadStatement     ",
    *b"BadOperand       ",
    *b"OperandRange     ",
    *b"NameTooLong      ",
    *b"                 ",
    *b"                 ",
    *b"                 ",
    *b"UndetAddrLabel   ",
    *b"UndetAddrStmt    ",
    *b"UnclosedOrig     ",
    *b"UnopenedOrig     ",
    *b"OverlappingOrig  ",
    *b"OverlappingLabels",
    *b"WrappingBlock    ",
    *b"BlockInIO        ",
    *b"OverlappingBlocks",
    *b"OffsetNewErr     ",
    *b"OffsetExternal   ",
    *b"CouldNotFindLabel",
    *b"                 ",
    *b"                 ",
    *b"                 ",
    *b"                 ",
    *b"                 ",
    *b"                 ",
    *b"                 ",
    *b"                 ",
    *b"TableFull        ",
    *b"NoRoom           ",
    *b"ShortBuffer      ",
    *b"BadObject        ",
    *b"                 ",
    *b"                 ",
    *b"                 ",
    *b"                 ",
    *b"                 ",
    *b"                 ",
    *b"BadField         ",
    *b"NoWriteRoom      ",
];

// The name of a refusal, filled up with spaces.
pub fn refusal_name(number: usize) -> [u8; NAME_WIDTH]
    ensures { result ≡ name_row number }
{
    if number < NUMBERS {
        return NAMES[number];
    }
    *b"                 "
}
