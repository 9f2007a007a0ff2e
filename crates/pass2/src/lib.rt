// Pass two over all statements of a source.
#![tactic(auto)]

ghost use Rattle.std.specs.Prelude.{◌≡◌};
ghost use Rattle.pass2.specs.Passing.{fresh, Passing, PassedTwo};

use base_refusals::Refusal;
use pass2_statement::{Pass2State, write_statement};

// Pass two before the first statement.
fn begin() -> Pass2State
    ensures { result ≡ fresh }
{
    Pass2State {
        inside: false,
        start: 0,
        orig_start: 0,
        orig_end: 0,
        blocks: 0,
        base: 0,
        used: 0,
    }
}

// Pass two of a source that pass one accepted with n symbols, into blank buffers.
pub fn pass_two(
    src: &[u8],
    rows: &[u32],
    n: usize,
    blocks: &mut [u16],
    origs: &mut [u32],
    words: &mut [u16],
    marks: &mut [u8],
) -> Result<Pass2State, Refusal>
    requires { Passing rows.now src.now n blocks.old origs.old words.old marks.old }
    ensures { PassedTwo rows.now src.now n blocks.new origs.new words.new marks.new result }
{
    let mut at = 0;
    let mut t = begin();
    // A while: each statement says where the next one begins.
    while let Some(st) = parse::next_statement(src, at)? {
        if pass2_statement::is_known(st, t) {
            t = pass2_statement::put_known(words, marks, st, t);
        } else {
            t = write_statement(src, rows, n, blocks, origs, words, marks, st, t)?;
        }
        at = st.next;
    }
    Ok(t)
}
