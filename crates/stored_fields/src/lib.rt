// Fields of stored bytes: their tags and sizes by name, and heads, numbers, words and names written at a place.
#![tactic(auto)]

ghost use Rattle.std.specs.Prelude.{◌++◌, ◌+◌, ◌*◌, ◌≤◌, length};
ghost use Rattle.rules.specs.Stored.{fin, block, run, sets, gap, pair, pairs};
ghost use Rattle.list_lines.specs.Appended.{Appended};
ghost use Rattle.stored_fields.specs.Fields.{head_bytes, field_bytes, field_of};

// What a field is, by its tag.
pub const END: u8 = 0;

pub const BLOCK: u8 = 1;

pub const SET_WORDS: u8 = 2;

pub const UNSET_WORDS: u8 = 3;

pub const DEFINED_LABEL: u8 = 4;

pub const EXTERNAL_LABEL: u8 = 5;

pub const RELOCATION: u8 = 6;

// How many bytes a number has, and a field before its content: its tag and its length.
pub const NUMBER_BYTES: usize = 2;

pub const HEAD_BYTES: usize = 1 + NUMBER_BYTES;

// How many bytes the field of a block has: a start and a count.
pub const BLOCK_BYTES: usize = HEAD_BYTES + 2 * NUMBER_BYTES;

// The most words of one field of set words.
pub const RUN_WORDS: usize = 16384;

// The length of what a block's field holds, and a field of unset words: two numbers, one number.
const BLOCK_CONTENT: u16 = 4;

const UNSET_CONTENT: u16 = 2;

// How many values a byte has.
const BYTE: u16 = 0x100;

// A number at a place, its high byte first; the place behind it.
pub fn put_number(out: &mut [u8], at: usize, v: u16) -> usize
    requires { at + 2 ≤ length out.old }
    ensures { Appended out.old out.new at result (pair v) }
{
    let next = at + 1;
    out[at] = (v / BYTE) as u8;
    out[next] = (v % BYTE) as u8;
    at + NUMBER_BYTES
}

// A tag and a length.
pub fn put_head(out: &mut [u8], at: usize, tag: u8, size: u16) -> usize
    requires { at + 3 ≤ length out.old }
    ensures { Appended out.old out.new at result (head_bytes tag size) }
{
    out[at] = tag;
    put_number(out, at + 1, size)
}

// Words as numbers, one behind another.
pub fn put_words(out: &mut [u8], at: usize, words: &[u16]) -> usize
    requires { at + length words.now * 2 ≤ length out.old }
    ensures { Appended out.old out.new at result (pairs words.now) }
{
    let mut end = at;
    for word in words {
        end = put_number(out, end, *word);
    }
    end
}

// A name at a place; the place behind it.
fn put_name(out: &mut [u8], at: usize, name: &[u8]) -> usize
    requires { at + length name.now ≤ length out.old }
    ensures { Appended out.old out.new at result name.now }
{
    base_buffers::put_name(out, at, name);
    at + name.len()
}

// A field that holds a name.
pub fn put_named(out: &mut [u8], at: usize, tag: u8, name: &[u8]) -> usize
    requires name_len_bound { length name.now ≤ 64 }
    requires name_in_bounds { at + length (field_bytes tag name.now) ≤ length out.old }
    ensures { Appended out.old out.new at result (field_bytes tag name.now) }
{
    let size = name.len() as u16;
    let next = put_head(out, at, tag, size);
    put_name(out, next, name)
}

// A field that holds an address and a name.
pub fn put_addressed(out: &mut [u8], at: usize, tag: u8, address: u16, name: &[u8]) -> usize
    requires name_len_bound { length name.now ≤ 64 }
    requires name_in_bounds { at + length (field_bytes tag (pair address ++ name.now)) ≤ length out.old }
    ensures { Appended out.old out.new at result (field_bytes tag (pair address ++ name.now)) }
{
    let size = (NUMBER_BYTES + name.len()) as u16;
    let first = put_head(out, at, tag, size);
    let next = put_number(out, first, address);
    put_name(out, next, name)
}

// A block's field: its start and its word count.
pub fn put_block_field(out: &mut [u8], at: usize, start: u16, size: u16) -> usize
    requires { at + length (field_of (block start size)) ≤ length out.old }
    ensures { Appended out.old out.new at result (field_of (block start size)) }
{
    let first = put_head(out, at, BLOCK, BLOCK_CONTENT);
    let next = put_number(out, first, start);
    put_number(out, next, size)
}

// A field of set words.
pub fn put_set(out: &mut [u8], at: usize, words: &[u16]) -> usize
    requires words_len_bound { length words.now ≤ 16384 }
    requires words_in_bounds { at + length (field_of (run (sets words.now))) ≤ length out.old }
    ensures { Appended out.old out.new at result (field_of (run (sets words.now))) }
{
    let size = (words.len() * NUMBER_BYTES) as u16;
    let next = put_head(out, at, SET_WORDS, size);
    put_words(out, next, words)
}

// A field of unset words: how many there are.
pub fn put_unset(out: &mut [u8], at: usize, n: usize) -> usize
    requires n_bound { n ≤ 65024 }
    requires n_in_bounds { at + length (field_of (run (gap n))) ≤ length out.old }
    ensures { Appended out.old out.new at result (field_of (run (gap n))) }
{
    let next = put_head(out, at, UNSET_WORDS, UNSET_CONTENT);
    put_number(out, next, n as u16)
}

// The field that ends the bytes.
pub fn put_end(out: &mut [u8], at: usize) -> usize
    requires { at + length (field_of fin) ≤ length out.old }
    ensures { Appended out.old out.new at result (field_of fin) }
{
    put_head(out, at, END, 0)
}
