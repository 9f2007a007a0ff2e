// Pass one at a statement's directive.
#![tactic(auto)]

ghost use Rattle.std.specs.Prelude.{ℕ};
ghost use Rattle.rules.specs.Words.{external};
ghost use Rattle.rules.specs.Words as Words;
ghost use Rattle.rules.specs.Statements.{Stmt};
ghost use Rattle.rules.specs.Passes.{directed};
ghost use Rattle.parse_meaning.specs.Reading.{Faithful};
ghost use Rattle.pass1_labels.specs.Tables.{Lent};
ghost use Rattle.pass1_labels.specs.Tables as Names;
ghost use Rattle.pass1_fill.specs.Tables.{Held, Stepping};
ghost use Rattle.pass1_directive.specs.Sound.{Sound};

use base_refusals::Refusal;
use parse::Statement;
use parse_rows::Op;
use pass1_state::Pass1State;

// .external: its name, where it has one.
fn external(
    src: &[u8],
    labels: &mut [u32],
    st: Statement,
    o: Pass1State,
) -> Result<Pass1State, Refusal>
    requires { Lent labels.old src.now o × Sound src.now st }
    ensures { (at : ℕ) (s : Stmt) → Faithful src.now at st s → Names.Stepping labels.old src.now labels.new o (λ v. directed external s v) result }
{
    if st.reach == parse_field::NO_LABEL {
        return Ok(o);
    }
    pass1_labels::add_external(
        src,
        labels,
        o,
        st.label_start,
        st.label_end,
        st.start,
        st.end,
    )
}

// .fill: its label, where it has one.
fn fill(
    src: &[u8],
    labels: &[u32],
    relocations: &mut [u32],
    st: Statement,
    o: Pass1State,
) -> Result<Pass1State, Refusal>
    requires { Held labels.now relocations.old src.now o × Sound src.now st }
    ensures { (at : ℕ) (s : Stmt) → Faithful src.now at st s → Stepping labels.now relocations.old src.now labels.now relocations.new o (λ v. directed Words.fill s v) result }
{
    if st.reach == parse_field::NO_LABEL {
        return Ok(o);
    }
    pass1_fill::fill_label(
        src,
        labels,
        relocations,
        o,
        st.label_start,
        st.label_end,
        st.start,
        st.end,
    )
}

// What the statement directs.
pub fn direct(
    src: &[u8],
    labels: &mut [u32],
    relocations: &mut [u32],
    st: Statement,
    o: Pass1State,
) -> Result<Pass1State, Refusal>
    requires { Held labels.old relocations.old src.now o × Sound src.now st }
    ensures { (at : ℕ) (s : Stmt) → Faithful src.now at st s → Stepping labels.old relocations.old src.now labels.new relocations.new o (λ v. directed s.op s v) result }
{
    match st.op {
        Op::Instr => Ok(o),
        Op::Orig => pass1_state::begin_block(o, st.bits, st.start, st.end),
        Op::Fill => fill(src, labels, relocations, st, o),
        Op::Blkw => Ok(o),
        Op::Stringz => Ok(o),
        Op::End => pass1_state::end_block(o, st.start, st.end),
        Op::External => external(src, labels, st, o),
    }
}
