// Pass one over all statements of a source.
#![tactic(auto)]

ghost use Rattle.std.specs.Prelude.{◌≡◌, [], ℕ, ◌≤◌, length};
ghost use Rattle.rules.specs.Statements.{Stmt};
ghost use Rattle.rules.specs.Passes.{step_one, pass_one};
ghost use Rattle.pass1_state.specs.State.{view_pass1, Steady};
ghost use Rattle.pass1_state.specs.State as Counting;
ghost use Rattle.parse_labels.specs.Walk.{Heads};
ghost use Rattle.parse_meaning.specs.Reading.{Faithful};
ghost use Rattle.pass1_fill.specs.Tables.{Held, Stepping};
ghost use Rattle.pass1.specs.Steps.{one_word, only_counts, step_on, Stands, PassedOne};

use base_refusals::Refusal;
use parse::Statement;
use parse_rows::Op;
use pass1_state::Pass1State;

// A statement after its labels: what it directs, then the counter's advance.
fn step_on(
    src: &[u8],
    labels: &mut [u32],
    relocations: &mut [u32],
    st: Statement,
    o: Pass1State,
) -> Result<Pass1State, Refusal>
    requires { Held labels.old relocations.old src.now o × Stands src.now st }
    ensures { (at : ℕ) (s : Stmt) → Faithful src.now at st s → Stepping labels.old relocations.old src.now labels.new relocations.new o (step_on s) result }
{
    let next = pass1_directive::direct(src, labels, relocations, st, o)?;
    let size = parse_meaning::word_len(src, st);
    pass1_state::shift(next, size, st.start, st.end)
}

// A statement that was looked for at a place, from its labels on.
fn step_labelled(
    src: &[u8],
    labels: &mut [u32],
    relocations: &mut [u32],
    at: usize,
    st: Statement,
    o: Pass1State,
) -> Result<Pass1State, Refusal>
    requires { Held labels.old relocations.old src.now o × Stands src.now st × Heads src.now at st.start }
    ensures { (s : Stmt) → Faithful src.now at st s → Stepping labels.old relocations.old src.now labels.new relocations.new o (step_one s) result }
{
    let next = pass1_labels::define_labels(src, labels, at, o, st.start, st.end)?;
    step_on(src, labels, relocations, st, next)
}

// An instruction, or a .fill of a number.
fn is_one_word(st: Statement) -> bool
    ensures { result ≡ one_word st.op st.reach }
{
    let op = st.op;
    match op {
        Op::Instr => true,
        Op::Fill => st.reach == 0,
        Op::Blkw => false,
        Op::Stringz => false,
        Op::Orig => false,
        Op::End => false,
        Op::External => false,
    }
}

// Of a statement of one word without labels, in a block with room for it, only the counter goes on.
fn only_counts(st: Statement, o: Pass1State) -> bool
    ensures { result ≡ only_counts st o }
{
    let one = is_one_word(st);
    let labelled = st.labelled;
    one & !labelled & o.inside & (o.counter < base_capacities::IO_START)
}

// A statement that was looked for at a place. Where it has no labels, none is looked for.
fn step(
    src: &[u8],
    labels: &mut [u32],
    relocations: &mut [u32],
    at: usize,
    st: Statement,
    o: Pass1State,
) -> Result<Pass1State, Refusal>
    requires { Held labels.old relocations.old src.now o × Stands src.now st × Heads src.now at st.start }
    ensures { (s : Stmt) → Faithful src.now at st s → Stepping labels.old relocations.old src.now labels.new relocations.new o (step_one s) result }
{
    if st.labelled {
        return step_labelled(src, labels, relocations, at, st, o);
    }
    step_on(src, labels, relocations, st, o)
}

// The end of the source: 22 at the .orig of a block that is open.
fn finish(o: Pass1State) -> Result<Pass1State, Refusal>
    requires { Steady o }
    ensures { Counting.Stepping o (λ x y. pass_one [] (view_pass1 x y o)) result }
{
    if o.inside {
        return pass1_state::refused(base_refusals::UNCLOSED_ORIG, o.orig_start, o.orig_end);
    }
    Ok(o)
}

// Pass one of a source, into lent tables, whatever stood there.
pub fn pass_one(
    src: &[u8],
    labels: &mut [u32],
    relocations: &mut [u32],
) -> Result<Pass1State, Refusal>
    requires { (length src.now ≤ 262144) × (6144 ≤ length labels.old) × (4096 ≤ length relocations.old) }
    ensures { PassedOne labels.new relocations.new src.now result }
{
    let mut at = 0;
    let mut o = pass1_state::fresh();
    // A while: each statement says where the next one begins.
    while let Some(st) = parse::next_statement(src, at)? {
        if only_counts(st, o) {
            o = pass1_state::counted(o, o.counter + 1);
        } else {
            o = step(src, labels, relocations, at, st, o)?;
        }
        at = st.next;
    }
    finish(o)
}
