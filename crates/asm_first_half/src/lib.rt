// A call up to pass two: the tables of pass one, or the refusal that goes before all others.
#![tactic(auto)]

ghost use Rattle.std.specs.Prelude.{◌≡◌, ◌≤◌, length};
ghost use Rattle.asm_first_half.specs.Tabled.{after_check, Tabled};
ghost use Rattle.asm_first_half.specs.Starting.{Started};

use base_refusals::{Fault, Refusal};
use pass1_state::Pass1State;

// Pass one's answer, unless the source is refused before it.
fn after_check(
    check: Result<(), Fault>,
    answer: Result<Pass1State, Refusal>,
) -> Result<Pass1State, Refusal>
    ensures { result ≡ after_check check answer }
{
    check?;
    answer
}

// The tables of pass one, whatever stood there, or the first refusal in the rule's order: 11, 12, the lexer's, those of statements, pass one's.
// 11 is tested first, then pass one is tried. Where it goes to the end it has read every statement, and with them every token, so that only 12 can go before;
// where it stops, at a refusal of its own or of a statement, the whole source is looked through for a refusal that goes before.
fn source_tables(
    src: &[u8],
    labels: &mut [u32],
    relocations: &mut [u32],
) -> Result<Pass1State, Refusal>
    requires { (6144 ≤ length labels.old) × (4096 ≤ length relocations.old) }
    ensures { Tabled labels.new relocations.new src.now result }
{
    if base_capacities::SOURCE_BYTES < src.len() {
        return pass1_state::refused(base_refusals::SOURCE_TOO_LONG, 0, src.len());
    }
    let answer = pass1::pass_one(src, labels, relocations);
    match answer {
        Ok(_) => after_check(parse::check_bytes(src), answer),
        Err(_) => after_check(parse::check_source(src), answer),
    }
}

// What is refused before pass two, in the rule's order: 42, then what goes before the end of pass one, then 41. No lent buffer is written.
pub fn first_half(
    src: &[u8],
    small: bool,
    room: usize,
    rows: &mut [u32],
    pending: &mut [u32],
) -> Result<Pass1State, Refusal>
    requires { (6144 ≤ length rows.old) × (4096 ≤ length pending.old) }
    ensures { Started small room rows.new pending.new src.now result }
{
    if small {
        return pass1_state::refused(base_refusals::SHORT_BUFFER, 0, 0);
    }
    let o = source_tables(src, rows, pending)?;
    if room < o.words {
        return pass1_state::refused(base_refusals::NO_ROOM, 0, 0);
    }
    Ok(o)
}
