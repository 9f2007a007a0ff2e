// Pass one at a .fill of a label: a relocation where the label is an external.
#![tactic(auto)]

ghost use Rattle.std.specs.Prelude.{◌≡◌, ◌+◌, ◌-◌, ◌*◌, ◌≤◌, length, get_or};
ghost use Rattle.std.proofs.Math.Option.{some};
ghost use Rattle.rules.specs.Base.{span};
ghost use Rattle.rules.specs.Tables.{look, name_order};
ghost use Rattle.rules.specs.Words.{fill};
ghost use Rattle.rules.specs.Statements.{Stmt, Target};
ghost use Rattle.rules.specs.Passes.{directed};
ghost use Rattle.parse_labels.specs.Names.{name_from, name_between, Between};
ghost use Rattle.pass1_symbols.specs.Symbols.{symbols, Growing};
ghost use Rattle.pass1_fill.specs.Tables.{step_of, is_outer, Held, Stepping};

use base_refusals::Refusal;
use pass1_state::Pass1State;

// The external flag of row k.
fn flag_of(rows: &[u32], k: usize) -> u32
    requires { k * 4 + 4 ≤ length rows.now }
    ensures { result ≡ get_or rows.now (k * 4 + 1) 0 }
{
    let i = k * base_capacities::LABEL_CELLS + base_capacities::LABEL_FLAG;
    rows[i]
}

// What adding a relocation answers, as a step from a state.
fn step_of(
    o: Pass1State,
    answer: Option<usize>,
    start: usize,
    end: usize,
) -> Result<Pass1State, Refusal>
    ensures { result ≡ step_of o start end answer }
{
    match answer {
        Some(n) => Ok(pass1_state::with_relocations(o, n)),
        None => pass1_state::refused(base_refusals::TABLE_FULL, start, end),
    }
}

// The symbols say that the name at `first` of the source, `size` bytes long, is an external.
fn is_external(src: &[u8], rows: &[u32], n: usize, first: u32, size: u32) -> bool
    requires { Growing rows.now src.now n × (first + size ≤ length src.now) }
    ensures { result ≡ is_outer (look name_order (symbols n rows.now src.now) (name_from src.now first size)) }
{
    match pass1_symbols::find_symbol(rows, src, n, first, size) {
        Some(k) => flag_of(rows, k) != base_capacities::DEFINED,
        None => false,
    }
}

// .fill of the name between two places, a statement from `start` up to `end`: an external outside every block is 21, inside it is noted at the counter.
pub fn fill_label(
    src: &[u8],
    labels: &[u32],
    relocations: &mut [u32],
    o: Pass1State,
    from: usize,
    to: usize,
    start: usize,
    end: usize,
) -> Result<Pass1State, Refusal>
    requires { Held labels.now relocations.old src.now o × Between src.now from to }
    ensures { (s : Stmt) (t : Target) → s.target ≡ some t → t.name ≡ name_between src.now from to → s.place ≡ span start end → Stepping labels.now relocations.old src.now labels.now relocations.new o (λ v. directed fill s v) result }
{
    let first = from as u32;
    let size = (to - from) as u32;
    let outside = is_external(src, labels, o.labels, first, size);
    if outside {
        if o.inside {
            let answer = pass1_relocations::add_relocation(
                relocations,
                src,
                o.relocations,
                o.counter,
                first,
                size,
            );
            return step_of(o, answer, start, end);
        }
        return pass1_state::refused(base_refusals::UNDET_ADDR_STMT, start, end);
    }
    Ok(o)
}
