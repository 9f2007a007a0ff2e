// Long runs of bytes of a class, looked at many bytes at a time: loops without an exit, of which the compiler makes wide ones.
#![tactic(auto)]

ghost use Rattle.std.specs.Prelude.{◌≡◌};
ghost use Rattle.base_text.specs.Runs.{run_end};
ghost use Rattle.base_text.specs.declared.Class.TheVariants.{Ascii, Plain};
ghost use Rattle.base_runs.specs.Every.{every};

use base_text::Class;

// How many bytes are looked at in one step.
const STEP: usize = 32;

// Every byte stands for itself in a string. Each of the four that do not has an answer of its own, since the compiler makes no wide loop of a test with several ways.
fn all_plain(s: &[u8]) -> bool
    ensures { result ≡ every Plain s.now }
{
    let mut no_quote = true;
    let mut no_backslash = true;
    let mut no_feed = true;
    let mut no_return = true;
    for b in s {
        no_quote &= *b != b'"';
        no_backslash &= *b != b'\\';
        no_feed &= *b != b'\n';
        no_return &= *b != b'\r';
    }
    no_quote & no_backslash & no_feed & no_return
}

// Every byte is an ASCII character.
fn all_ascii(s: &[u8]) -> bool
    ensures { result ≡ every Ascii s.now }
{
    let mut all = true;
    for b in s {
        all &= *b < base_text::PAST_ASCII;
    }
    all
}

// Where the first byte stands that is no ASCII character; the length where there is none.
pub fn ascii_end(src: &[u8]) -> usize
    ensures { result ≡ run_end Ascii src.now 0 }
{
    if all_ascii(src) {
        return src.len();
    }
    base_text::run_end(src, 0, Class::Ascii)
}

// Where the run of plain bytes from `at` ends: in steps as far as these are plain, then byte by byte.
pub fn plain_end(src: &[u8], at: usize) -> usize
    ensures { result ≡ run_end Plain src.now at }
{
    if src.len() <= at {
        return at;
    }
    let mut i = at;
    // A while: each turn passes over many bytes, as long as all of them are plain.
    while STEP <= src.len() - i {
        let stop = i + STEP;
        if all_plain(&src[i..stop]) {
            i = stop;
        } else {
            return base_text::run_end(src, i, Class::Plain);
        }
    }
    base_text::run_end(src, i, Class::Plain)
}
