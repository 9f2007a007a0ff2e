// Pass one at names: they go into the symbol table, the labels before a statement at the counter, that of an .external at 0.
#![tactic(auto)]

ghost use Rattle.std.specs.Prelude.{◌≡◌, ◌+◌, ◌*◌, ◌≤◌, length, get_or, Err};
ghost use Rattle.std.proofs.Math.Option.{some};
ghost use Rattle.rules.specs.Base.{span};
ghost use Rattle.rules.specs.Words.{external};
ghost use Rattle.rules.specs.Statements.{Stmt, Target, labels_at};
ghost use Rattle.rules.specs.Passes.{labelled, directed};
ghost use Rattle.base_refusals.specs.Refusals.{refusal};
ghost use Rattle.pass1_labels.specs.Naming.{NameReady, NameAdded, NamesReady, NamesAdded};
ghost use Rattle.parse_labels.specs.Names.{name_between, Between};
ghost use Rattle.parse_labels.specs.Walk.{Heads};
ghost use Rattle.pass1_labels.specs.Tables.{step_of, Lent, Stepping};

use base_capacities::{DEFINED, EXTERNAL};
use base_refusals::Refusal;
use parse_labels::NextLabel;
use pass1_state::Pass1State;
use pass1_symbols::AddErr;

// A cell of row k.
fn cell(rows: &[u32], k: usize, j: usize) -> u32
    requires { (k * 4 + 4 ≤ length rows.now) × (j ≤ 3) }
    ensures { result ≡ get_or rows.now (k * 4 + j) 0 }
{
    let i = k * base_capacities::LABEL_CELLS + j;
    rows[i]
}

// 25: the name of row k, and the one at another address.
fn clash(rows: &[u32], k: usize, from: usize, to: usize) -> Result<usize, Refusal>
    requires { k * 4 + 4 ≤ length rows.now }
    ensures { result ≡ Err (refusal 25 (get_or rows.now (k * 4 + 2) 0) (get_or rows.now (k * 4 + 2) 0 + get_or rows.now (k * 4 + 3) 0) from to) }
{
    let start = cell(rows, k, base_capacities::NAME_START) as usize;
    let size = cell(rows, k, base_capacities::NAME_LENGTH) as usize;
    Err(Refusal {
        number: base_refusals::OVERLAPPING_LABELS,
        start,
        end: start + size,
        start2: from,
        end2: to,
    })
}

// The rows of the table with the name between two places of the source, at an address, for a statement from `start` up to `end`; the flag is 1 of an external.
pub fn add_label(
    src: &[u8],
    rows: &mut [u32],
    n: usize,
    address: u32,
    flag: u32,
    from: usize,
    to: usize,
    start: usize,
    end: usize,
) -> Result<usize, Refusal>
    requires { NameReady rows.old src.now n address flag from to }
    ensures { NameAdded rows.old src.now rows.new n address flag from to (span start end) result }
{
    let first = from as u32;
    let size = (to - from) as u32;
    match pass1_symbols::add_symbol(rows, src, n, address, flag, first, size) {
        Ok(m) => Ok(m),
        Err(AddErr::Clash(k)) => clash(rows, k, from, to),
        Err(AddErr::Full) => Err(Refusal {
            number: base_refusals::TABLE_FULL,
            start,
            end,
            start2: 0,
            end2: 0,
        }),
    }
}

// All labels from a place on, at an address, for the statement after them, from `start` up to `end`.
pub fn add_labels(
    src: &[u8],
    rows: &mut [u32],
    at: usize,
    n: usize,
    address: u32,
    start: usize,
    end: usize,
) -> Result<usize, Refusal>
    requires { NamesReady rows.old src.now n address × Heads src.now at start }
    ensures { NamesAdded rows.old src.now rows.new at n address (span start end) result }
{
    let mut i = at;
    let mut held = n;
    // A loop: until no label is left.
    loop {
        match parse_labels::label_before(src, i, start) {
            NextLabel::Label {
                start: from,
                end: to,
                next,
            } => {
                held = add_label(src, rows, held, address, DEFINED, from, to, start, end)?;
                i = next;
            }
            NextLabel::Done => {
                return Ok(held);
            }
        }
    }
}

// What adding names answers, as a step from a state.
pub fn step_of(o: Pass1State, answer: Result<usize, Refusal>) -> Result<Pass1State, Refusal>
    ensures { result ≡ step_of o answer }
{
    match answer {
        Ok(n) => Ok(pass1_state::with_labels(o, n)),
        Err(refusal) => Err(refusal),
    }
}

// The labels from a place on, for the statement after them, from `start` up to `end`: 20 at the first where no block is open.
pub fn define_labels(
    src: &[u8],
    rows: &mut [u32],
    at: usize,
    o: Pass1State,
    start: usize,
    end: usize,
) -> Result<Pass1State, Refusal>
    requires { Lent rows.old src.now o × Heads src.now at start }
    ensures { Stepping rows.old src.now rows.new o (λ v. labelled (labels_at src.now at) (span start end) v) result }
{
    if o.inside {
        let n = o.labels;
        let address = o.counter;
        let answer = add_labels(src, rows, at, n, address, start, end);
        return step_of(o, answer);
    }
    match parse_labels::next_label(src, at) {
        NextLabel::Label {
            start: from,
            end: to,
            next: _,
        } => pass1_state::refused(base_refusals::UNDET_ADDR_LABEL, from, to),
        NextLabel::Done => Ok(o),
    }
}

// .external of the name between two places, a statement from `start` up to `end`.
pub fn add_external(
    src: &[u8],
    rows: &mut [u32],
    o: Pass1State,
    from: usize,
    to: usize,
    start: usize,
    end: usize,
) -> Result<Pass1State, Refusal>
    requires { Lent rows.old src.now o × Between src.now from to }
    ensures { (s : Stmt) (t : Target) → s.target ≡ some t → t.name ≡ name_between src.now from to → s.place ≡ span start end → Stepping rows.old src.now rows.new o (λ v. directed external s v) result }
{
    let n = o.labels;
    let answer = add_label(src, rows, n, 0, EXTERNAL, from, to, start, end);
    step_of(o, answer)
}
