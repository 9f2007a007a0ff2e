// A statement as the passes use it: what it says of the rules' statement, and how many words it takes.
#![tactic(auto)]

ghost use Rattle.std.specs.Prelude.{◌≡◌, ℕ, ◌+◌, ◌≤◌, ◌<◌, length};
ghost use Rattle.rules.specs.Statements.{Stmt};
ghost use Rattle.rules.specs.Passes.{word_len};
ghost use Rattle.parse_meaning.specs.Reading.{chars_at, Faithful};

use lex_literals::StringChar;
use parse::Statement;
use parse_rows::Op;

// How many characters a string has from a place inside it. Plain bytes are counted in runs.
pub fn string_size(src: &[u8], at: usize) -> usize
    ensures { (result ≡ length (chars_at src.now at)) × (result ≤ length src.now) }
{
    let mut i = at;
    let mut count: usize = 0;
    // A loop: what stands where a run ends says where to go on.
    loop {
        let stop = base_runs::plain_end(src, i);
        count += stop - i;
        match lex_literals::string_char(src, stop) {
            StringChar::Char { byte: _, next } => {
                count += 1;
                i = next;
            }
            StringChar::Done => {
                return count;
            }
        }
    }
}

// The words of a string whose quote stands at a place: its characters and a zero.
fn string_words(src: &[u8], quote: usize) -> u32
    requires { length src.now ≤ 262144 }
    ensures { (result ≡ length (chars_at src.now (quote + 1)) + 1) × (result ≤ 262145) }
{
    if quote < src.len() {
        let size = string_size(src, quote + 1);
        return size as u32 + 1;
    }
    1
}

// How many words a statement takes.
pub fn word_len(src: &[u8], st: Statement) -> u32
    requires { (length src.now ≤ 262144) × (st.bits < 65536) }
    ensures { (result ≤ 262145) × ((at : ℕ) (s : Stmt) → Faithful src.now at st s → result ≡ word_len s.op s) }
{
    let op = st.op;
    match op {
        Op::Instr => 1,
        Op::Fill => 1,
        Op::Blkw => st.bits,
        Op::Stringz => string_words(src, st.text_start),
        Op::Orig => 0,
        Op::End => 0,
        Op::External => 0,
    }
}
