// The listing program on slices: what it prints for what was read of its input, left as bytes in a lent buffer.
#![tactic(auto)]

ghost use Rattle.std.specs.Prelude.{◌≡◌, true, false, List, ◌++◌, ℕ, ◌+◌, ◌≤◌, ◌<◌, length};
ghost use Rattle.rules.specs.Base.{refuse, nowhere};
ghost use Rattle.rules.specs.Buffers.{six, short, Valid, view};
ghost use Rattle.rules.specs.Listing.{decimal, listing, printed, listing_program};
ghost use Rattle.object.specs.Meaning.{counts};
ghost use Rattle.list_lines.specs.Appended.{Appended};
ghost use Rattle.list_print.specs.Program.{follows, Wrote, tells, Tellable};

use base_capacities::{BLOCKS, LABELS, NAME_BYTES, RELOCATIONS};
use base_refusals::SOURCE_TOO_LONG;
use list_lines::{BLOCK_LINE_BYTES, WORD_LINE_BYTES};
use list_sections::{LABEL_LINE_REST, RELOCATION_LINE_REST};
use object::Counts;
use object_answer::Answer;

// How many bytes of source and how many words the program has room for.
pub const SOURCE_BYTES: usize = 65536;

pub const WORDS: usize = 32768;

// The longest listing of an object with so many words.
pub const LISTING_BYTES: usize = BLOCKS * BLOCK_LINE_BYTES
    + WORDS * WORD_LINE_BYTES
    + LABELS * (NAME_BYTES + LABEL_LINE_REST)
    + RELOCATIONS * (NAME_BYTES + RELOCATION_LINE_REST);

// A decimal digit.
fn digit(n: u16) -> u8
    requires { n < 10 }
    ensures { result ≡ 48 + n }
{
    b'0' + n as u8
}

// A number below 100, one digit or two.
fn put_decimal(out: &mut [u8], at: usize, number: u16) -> usize
    requires number_bound { number < 100 }
    requires at_in_bounds { at + 2 ≤ length out.old }
    ensures { Appended out.old out.new at result (decimal number) }
{
    if number < 10 {
        let one = [digit(number)];
        return list_lines::put_text(out, at, &one);
    }
    let two = [digit(number / 10), digit(number % 10)];
    list_lines::put_text(out, at, &two)
}

// A refusal's line.
fn write_refused(text: &mut [u8], number: u16) -> usize
    requires number_bound { number < 100 }
    requires in_bounds { 11 ≤ length text.old }
    ensures { Wrote (printed (refuse number nowhere)) (length text.old) result text.new }
{
    base_buffers::clear(text, 0);
    let a = list_lines::put_text(text, 0, b"REFUSED ");
    let b = put_decimal(text, a, number);
    list_lines::put_text(text, b, b"\n")
}

// The listing of a valid object.
fn write_object(
    c: Counts,
    blocks: &[u16],
    words: &[u16],
    marks: &[u8],
    labels: &[u32],
    relocations: &[u32],
    names: &[u8],
    text: &mut [u8],
) -> usize
    requires valid { Valid (counts c) (six blocks.now words.now marks.now labels.now relocations.now names.now) }
    requires names_value { short (six blocks.now words.now marks.now labels.now relocations.now names.now) ≡ false }
    requires names_in_bounds { length (listing (view (counts c) (six blocks.now words.now marks.now labels.now relocations.now names.now))) ≤ length text.old }
    ensures { Wrote (listing (view (counts c) (six blocks.now words.now marks.now labels.now relocations.now names.now))) (length text.old) result text.new }
{
    match list::list(c, blocks, words, marks, labels, relocations, names, text) {
        Ok(n) => n,
        Err(_) => 0,
    }
}

// What a call has answered: the listing of the object that it left in these buffers, or its refusal.
pub fn write_answer(
    answer: Answer,
    blocks: &[u16],
    words: &[u16],
    marks: &[u8],
    labels: &[u32],
    relocations: &[u32],
    names: &[u8],
    text: &mut [u8],
) -> usize
    requires { Tellable answer (six blocks.now words.now marks.now labels.now relocations.now names.now) (length text.old) }
    ensures { Wrote (tells answer (six blocks.now words.now marks.now labels.now relocations.now names.now)) (length text.old) result text.new }
{
    if answer.number == 0 {
        let c = object_answer::counts_of(answer);
        return write_object(c, blocks, words, marks, labels, relocations, names, text);
    }
    write_refused(text, answer.number)
}

// An input that the program holds whole.
fn list_whole(src: &[u8], text: &mut [u8]) -> usize
    requires src_len_bound { length src.now ≤ 65536 }
    requires in_bounds { 482304 ≤ length text.old }
    ensures { Wrote (listing_program src.now) (length text.old) result text.new }
{
    let mut blocks = [0u16; object::BLOCK_ROOM];
    let mut words = [0u16; WORDS];
    let mut marks = [0u8; WORDS];
    let mut labels = [0u32; object::LABEL_ROOM];
    let mut relocations = [0u32; object::RELOCATION_ROOM];
    let mut names = [0u8; object::NAME_ROOM];
    let answer = asm::assemble(
        src,
        &mut blocks,
        &mut words,
        &mut marks,
        &mut labels,
        &mut relocations,
        &mut names,
    );
    write_answer(
        answer,
        &blocks,
        &words,
        &marks,
        &labels,
        &relocations,
        &names,
        text,
    )
}

// What the program prints, of an input of which it has read `src`: all of it, or, where more follows, as many bytes as it has room for.
pub fn list_source(src: &[u8], more: bool, text: &mut [u8]) -> usize
    requires src_len_bound { length src.now ≤ 65536 }
    requires src_len { more ≡ true → length src.now ≡ 65536 }
    requires in_bounds { 482304 ≤ length text.old }
    ensures by_index { (rest : List ℕ) → more ≡ follows rest → Wrote (listing_program (src.now ++ rest)) (length text.old) result text.new }
    ensures upper_bound { result ≤ length text.new }
{
    if more {
        return write_refused(text, SOURCE_TOO_LONG);
    }
    list_whole(src, text)
}
