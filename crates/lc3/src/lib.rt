// The functions for other languages. A slice passes as a pointer and a length; every answer goes to `out`: the number, two spans and four counts.
#![tactic(auto)]

ghost use Rattle.std.specs.Prelude.{◌≡◌, length};
ghost use Rattle.rules.specs.Tokens.{next_token};
ghost use Rattle.rules.specs.Words.{line};
ghost use Rattle.rules.specs.Buffers.{six};
ghost use Rattle.rules.specs.Answers.{numbers, answer};
ghost use Rattle.rules.specs.Stored.{check};
ghost use Rattle.lex_token.specs.Coded.{coded};
ghost use Rattle.parse.specs.Coded.{source_statements};
ghost use Rattle.rules.specs.Calls.{left_object};
ghost use Rattle.asm.specs.Call.{called};
ghost use Rattle.stored_load.specs.Call.{called as loading};
ghost use Rattle.lc3_answers.specs.Told.{four, next_told, line_told};
ghost use Rattle.lc3.specs.Calls.{checked, place_told, RefusalCall, LinkCall, ListCall, StoreCall, LookupCall, RevLookupCall};

use object::Counts;

// The next token from `at` on: its place, its sort and its value; or its refusal.
#[unsafe(no_mangle)]
pub extern "C" fn lc3_next_token(src: &[u8], at: usize, out: &mut [u64; 9])
    ensures { out.new ≡ numbers (next_told (coded (next_token src.now at))) }
{
    lc3_answers::put_answer(out, lc3_answers::told_lexeme(lex::lexeme_at(src, at)));
}

// The first refusal of a source: 11, 12, 1 to 10, then 13 to 16.
#[unsafe(no_mangle)]
pub extern "C" fn lc3_first_refusal(src: &[u8], out: &mut [u64; 9])
    ensures { out.new ≡ numbers (checked (source_statements src.now)) }
{
    lc3_answers::put_answer(out, lc3_answers::told_statements(parse::check_source(src)));
}

// The instruction of a word by its code and operands, or 255 and the word of a .fill.
#[unsafe(no_mangle)]
pub extern "C" fn lc3_disassemble(word: u16, out: &mut [u64; 9])
    ensures { out.new ≡ numbers (line_told (line word)) }
{
    lc3_answers::put_answer(
        out,
        lc3_answers::told_line(isa::disassembly::disassemble_line(word)),
    );
}

// A place of a source: how many lines stand before it, and how many bytes before it in its line; one past the end counts as the end.
#[unsafe(no_mangle)]
pub extern "C" fn lc3_place(src: &[u8], at: usize, out: &mut [u64; 9])
    ensures { out.new ≡ numbers (place_told src.now at) }
{
    let before = stored_read::part_of(src, 0, at);
    let lines = view_places::line_feeds(before);
    let bytes = view_places::bytes_since(before);
    lc3_answers::put_answer(out, lc3_answers::told_place(lines, bytes));
}

// A refusal as text, REFUSED, its number, its name and what it means, as far as it fits, and zero behind it: how many bytes.
#[unsafe(no_mangle)]
pub extern "C" fn lc3_refusal(number: u16, text: &mut [u8], out: &mut [u64; 9])
    ensures { RefusalCall number (length text.old) text.new out.new }
{
    base_buffers::clear(text, 0);
    let n = view_refusal::put_title(text, 0, number);
    lc3_answers::put_answer(out, lc3_answers::told_written(Ok(n)));
}

// Any source to an object in the lent buffers: the counts of blocks, words, labels and relocations; or one refusal, and every buffer zero.
#[unsafe(no_mangle)]
pub extern "C" fn lc3_assemble(
    src: &[u8],
    blocks: &mut [u16],
    words: &mut [u16],
    marks: &mut [u8],
    labels: &mut [u32],
    relocations: &mut [u32],
    names: &mut [u8],
    out: &mut [u64; 9],
)
    ensures out_after { out.new ≡ numbers (answer (called (six blocks.old words.old marks.old labels.old relocations.old names.old) src.now)) }
    ensures names_after { six blocks.new words.new marks.new labels.new relocations.new names.new ≡ left_object (called (six blocks.old words.old marks.old labels.old relocations.old names.old) src.now) (six blocks.old words.old marks.old labels.old relocations.old names.old) }
{
    let a = asm::assemble(src, blocks, words, marks, labels, relocations, names);
    lc3_answers::put_answer(out, lc3_answers::told_answer(a));
}

// Two lent objects into a third, in the lent buffers: the counts of blocks, words, labels and relocations; or one refusal, and every buffer zero.
#[unsafe(no_mangle)]
pub extern "C" fn lc3_link(
    n_blocks1: usize,
    n_words1: usize,
    n_labels1: usize,
    n_relocations1: usize,
    blocks1: &[u16],
    words1: &[u16],
    marks1: &[u8],
    labels1: &[u32],
    relocations1: &[u32],
    names1: &[u8],
    n_blocks2: usize,
    n_words2: usize,
    n_labels2: usize,
    n_relocations2: usize,
    blocks2: &[u16],
    words2: &[u16],
    marks2: &[u8],
    labels2: &[u32],
    relocations2: &[u32],
    names2: &[u8],
    blocks: &mut [u16],
    words: &mut [u16],
    marks: &mut [u8],
    labels: &mut [u32],
    relocations: &mut [u32],
    names: &mut [u8],
    out: &mut [u64; 9],
)
    ensures { LinkCall (four n_blocks1 n_words1 n_labels1 n_relocations1) (six blocks1.now words1.now marks1.now labels1.now relocations1.now names1.now) (four n_blocks2 n_words2 n_labels2 n_relocations2) (six blocks2.now words2.now marks2.now labels2.now relocations2.now names2.now) (six blocks.old words.old marks.old labels.old relocations.old names.old) (six blocks.new words.new marks.new labels.new relocations.new names.new) out.new }
{
    let first = Counts {
        blocks: n_blocks1,
        words: n_words1,
        labels: n_labels1,
        relocations: n_relocations1,
    };
    let second = Counts {
        blocks: n_blocks2,
        words: n_words2,
        labels: n_labels2,
        relocations: n_relocations2,
    };
    let linked = link::link(
        first,
        blocks1,
        words1,
        marks1,
        labels1,
        relocations1,
        names1,
        second,
        blocks2,
        words2,
        marks2,
        labels2,
        relocations2,
        names2,
        blocks,
        words,
        marks,
        labels,
        relocations,
        names,
    );
    lc3_answers::put_answer(out, lc3_answers::told_answer(linked));
}

// The listing of a lent object, into `text`: how many bytes; or 42, 43 or 51.
#[unsafe(no_mangle)]
pub extern "C" fn lc3_list(
    n_blocks: usize,
    n_words: usize,
    n_labels: usize,
    n_relocations: usize,
    blocks: &[u16],
    words: &[u16],
    marks: &[u8],
    labels: &[u32],
    relocations: &[u32],
    names: &[u8],
    text: &mut [u8],
    out: &mut [u64; 9],
)
    ensures { ListCall (four n_blocks n_words n_labels n_relocations) (six blocks.now words.now marks.now labels.now relocations.now names.now) (length text.old) text.new out.new }
{
    let c = Counts {
        blocks: n_blocks,
        words: n_words,
        labels: n_labels,
        relocations: n_relocations,
    };
    let listed = list::list(c, blocks, words, marks, labels, relocations, names, text);
    lc3_answers::put_answer(out, lc3_answers::told_written(listed));
}

// A lent object in its stored form, into `bytes`: how many; or 42, 43 or 51.
#[unsafe(no_mangle)]
pub extern "C" fn lc3_store(
    n_blocks: usize,
    n_words: usize,
    n_labels: usize,
    n_relocations: usize,
    blocks: &[u16],
    words: &[u16],
    marks: &[u8],
    labels: &[u32],
    relocations: &[u32],
    names: &[u8],
    bytes: &mut [u8],
    out: &mut [u64; 9],
)
    ensures { StoreCall (four n_blocks n_words n_labels n_relocations) (six blocks.now words.now marks.now labels.now relocations.now names.now) (length bytes.old) bytes.new out.new }
{
    let c = Counts {
        blocks: n_blocks,
        words: n_words,
        labels: n_labels,
        relocations: n_relocations,
    };
    let stored = stored::store(c, blocks, words, marks, labels, relocations, names, bytes);
    lc3_answers::put_answer(out, lc3_answers::told_written(stored));
}

// Checks stored bytes: the counts of blocks, words, labels and relocations; or 50 and its offset.
#[unsafe(no_mangle)]
pub extern "C" fn lc3_check(bytes: &[u8], out: &mut [u64; 9])
    ensures { out.new ≡ numbers (answer (check bytes.now)) }
{
    lc3_answers::put_answer(out, lc3_answers::told_answer(stored_check::check(bytes)));
}

// Stored bytes to an object in the lent buffers: the counts of blocks, words, labels and relocations; or one refusal, and every buffer zero.
#[unsafe(no_mangle)]
pub extern "C" fn lc3_load(
    bytes: &[u8],
    blocks: &mut [u16],
    words: &mut [u16],
    marks: &mut [u8],
    labels: &mut [u32],
    relocations: &mut [u32],
    names: &mut [u8],
    out: &mut [u64; 9],
)
    ensures out_after { out.new ≡ numbers (answer (loading (six blocks.old words.old marks.old labels.old relocations.old names.old) bytes.now)) }
    ensures names_after { six blocks.new words.new marks.new labels.new relocations.new names.new ≡ left_object (loading (six blocks.old words.old marks.old labels.old relocations.old names.old) bytes.now) (six blocks.old words.old marks.old labels.old relocations.old names.old) }
{
    let a = stored_load::load(bytes, blocks, words, marks, labels, relocations, names);
    lc3_answers::put_answer(out, lc3_answers::told_answer(a));
}

// What a lent object says of a name: found, external, the address; or 42 or 43.
#[unsafe(no_mangle)]
pub extern "C" fn lc3_lookup_label(
    n_blocks: usize,
    n_words: usize,
    n_labels: usize,
    n_relocations: usize,
    blocks: &[u16],
    words: &[u16],
    marks: &[u8],
    labels: &[u32],
    relocations: &[u32],
    names: &[u8],
    name: &[u8],
    out: &mut [u64; 9],
)
    ensures { LookupCall (four n_blocks n_words n_labels n_relocations) (six blocks.now words.now marks.now labels.now relocations.now names.now) name.now out.new }
{
    let c = Counts {
        blocks: n_blocks,
        words: n_words,
        labels: n_labels,
        relocations: n_relocations,
    };
    let said = object_lookup::lookup_label(
        c,
        blocks,
        words,
        marks,
        labels,
        relocations,
        names,
        name,
    );
    lc3_answers::put_answer(out, lc3_answers::told_said(said));
}

// The label of a lent object at an address: found, its row, its name's start and length; or 42 or 43.
#[unsafe(no_mangle)]
pub extern "C" fn lc3_rev_lookup_label(
    n_blocks: usize,
    n_words: usize,
    n_labels: usize,
    n_relocations: usize,
    blocks: &[u16],
    words: &[u16],
    marks: &[u8],
    labels: &[u32],
    relocations: &[u32],
    names: &[u8],
    address: u32,
    out: &mut [u64; 9],
)
    ensures { RevLookupCall (four n_blocks n_words n_labels n_relocations) (six blocks.now words.now marks.now labels.now relocations.now names.now) address out.new }
{
    let c = Counts {
        blocks: n_blocks,
        words: n_words,
        labels: n_labels,
        relocations: n_relocations,
    };
    let found = object_lookup::rev_lookup_label(
        c,
        blocks,
        words,
        marks,
        labels,
        relocations,
        names,
        address,
    );
    lc3_answers::put_answer(out, lc3_answers::told_found(labels, found));
}
