// The words of a statement in pass two, each beside its mark, written behind those in use.
#![tactic(auto)]

ghost use Rattle.std.specs.Prelude.{◌≡◌, map, [], ◌∷◌, ◌++◌, ℕ, ◌+◌, ◌<◌, length};
ghost use Rattle.rules.specs.Objects.{word};
ghost use Rattle.rules.specs.Statements.{Stmt};
ghost use Rattle.rules.specs.Passes.{words_of};
ghost use Rattle.pass1_symbols.specs.Symbols.{symbols};
ghost use Rattle.parse_meaning.specs.Reading.{chars_at, plain_at, Faithful};
ghost use Rattle.pass2_encode.specs.Worded.{told};
ghost use Rattle.pass2_words.specs.Writing.{Wrote, WroteAs, Room, Roomy};

use base_refusals::Fault;
use lex_literals::StringChar;
use parse::Statement;
use parse_rows::Op;

// A word behind those in use.
pub fn push(words: &mut [u16], marks: &mut [u8], used: usize, w: u16)
    requires { Room words.old marks.old used 1 }
    ensures { Wrote words.old marks.old words.new marks.new used (word w ∷ []) }
{
    words[used] = w;
    marks[used] = base_capacities::SET;
}

// The word of an answer, and how many words are in use with it.
fn put_answer(
    words: &mut [u16],
    marks: &mut [u8],
    used: usize,
    answer: Result<u16, Fault>,
) -> Result<usize, Fault>
    requires { Room words.old marks.old used 1 }
    ensures { WroteAs (told answer) words.old marks.old words.new marks.new used result }
{
    push(words, marks, used, answer?);
    Ok(used + 1)
}

// The n plain bytes of a string from a place on, each a word.
fn put_plain(src: &[u8], i: usize, n: usize, words: &mut [u16], marks: &mut [u8], used: usize)
    requires n_value { n ≡ length (plain_at src.now i) }
    requires room { Room words.old marks.old used n }
    ensures { Wrote words.old marks.old words.new marks.new used (map word (plain_at src.now i)) }
{
    for j in 0..n {
        push(words, marks, used + j, u16::from(src[i + j]));
    }
}

// The characters of a string, from a place inside it. Plain bytes are written in runs.
fn put_chars(src: &[u8], words: &mut [u16], marks: &mut [u8], used: usize, at: usize) -> usize
    requires { Room words.old marks.old used (length (chars_at src.now at)) }
    ensures { Wrote words.old marks.old words.new marks.new used (map word (chars_at src.now at)) × (result ≡ used + length (chars_at src.now at)) }
{
    let mut i = at;
    let mut k = used;
    // A loop: characters until the end of the string.
    loop {
        let stop = base_runs::plain_end(src, i);
        let run = stop - i;
        put_plain(src, i, run, words, marks, k);
        k += run;
        match lex_literals::string_char(src, stop) {
            StringChar::Char { byte, next } => {
                push(words, marks, k, u16::from(byte));
                k += 1;
                i = next;
            }
            StringChar::Done => {
                return k;
            }
        }
    }
}

// The place after a quote.
fn after_quote(src: &[u8], quote: usize) -> usize
    ensures { chars_at src.now result ≡ chars_at src.now (quote + 1) }
{
    if quote < src.len() {
        return quote + 1;
    }
    quote
}

// The characters of a string whose quote stands at a place, and a zero.
fn put_string(src: &[u8], words: &mut [u16], marks: &mut [u8], used: usize, quote: usize) -> usize
    requires { Room words.old marks.old used (length (chars_at src.now (quote + 1)) + 1) }
    ensures { Wrote words.old marks.old words.new marks.new used (map word (chars_at src.now (quote + 1) ++ 0 ∷ [])) × (result ≡ used + (length (chars_at src.now (quote + 1)) + 1)) }
{
    let at = after_quote(src, quote);
    let end = put_chars(src, words, marks, used, at);
    push(words, marks, end, 0);
    end + 1
}

// The words of a statement at an address: of a directive those of the Rust's `write_directive`.
pub fn write_words(
    src: &[u8],
    rows: &[u32],
    n: usize,
    words: &mut [u16],
    marks: &mut [u8],
    st: Statement,
    used: usize,
    address: u32,
) -> Result<usize, Fault>
    requires { Roomy rows.now src.now n words.old marks.old st used address }
    ensures { (at : ℕ) (s : Stmt) → Faithful src.now at st s → WroteAs (words_of (symbols n rows.now src.now) address s.op s) words.old marks.old words.new marks.new used result }
{
    match st.op {
        Op::Instr => {
            let answer = pass2_encode::instr_word(src, rows, n, st, address);
            put_answer(words, marks, used, answer)
        }
        Op::Fill => {
            let answer = pass2_encode::fill_word(src, rows, n, st);
            put_answer(words, marks, used, answer)
        }
        Op::Blkw => Ok(used + st.bits as usize),
        Op::Stringz => Ok(put_string(src, words, marks, used, st.text_start)),
        Op::Orig => Ok(used),
        Op::End => Ok(used),
        Op::External => Ok(used),
    }
}
