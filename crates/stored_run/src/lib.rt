// Fields of labels that follow one another in stored bytes, looked at in plain numbers, since there are many. What breaks the form is left to the step of the walk.
#![tactic(auto)]

ghost use Rattle.std.specs.Prelude.{◌≡◌, ◌+◌, ◌≤◌, length};
ghost use Rattle.stored_read.proofs.Found.{Stands};
ghost use Rattle.stored_walk.specs.Walking.{Going};
ghost use Rattle.stored_run.specs.Following.{behind_labels, name_start, EndsAbove, LabelEnds, Runs};

use base_capacities::LABELS;
use std::cmp::Ordering;
use stored_fields::{DEFINED_LABEL, EXTERNAL_LABEL, HEAD_BYTES, NUMBER_BYTES};
use stored_read::Field;
use stored_walk::Walk;

// Behind labels up to a place: so many, whose names have so many bytes.
pub fn behind_labels(w: Walk, at: usize, labels: usize, named: usize) -> Walk
    ensures { result ≡ behind_labels w at labels named }
{
    Walk {
        at,
        labels,
        named,
        ..w
    }
}

// Where the name begins in the field of a label.
pub fn name_start(bytes: &[u8], at: usize) -> usize
    requires { at + 3 ≤ length bytes.now }
    ensures { result ≡ name_start bytes.now at }
{
    if bytes[at] == DEFINED_LABEL {
        return at + HEAD_BYTES + NUMBER_BYTES;
    }
    at + HEAD_BYTES
}

// Where a name ends, if it may follow the one from `last` up to `at`; if not, `at`.
fn end_above(bytes: &[u8], last: usize, at: usize, start: usize, end: usize) -> usize
    requires { (last ≤ at) × (at ≤ start) × (start ≤ end) × (end ≤ length bytes.now) }
    ensures { EndsAbove bytes.now last at start end result }
{
    let name = &bytes[start..end];
    let order = base_text::compare_bytes(&bytes[last..at], name);
    if matches!(order, Ordering::Less) && object_names::is_label(name) {
        return end;
    }
    at
}

// Where a field that is whole ends, if it is that of a label whose name may follow the one from `last` up to `at`; if not, `at`.
fn field_end(bytes: &[u8], last: usize, at: usize, tag: u8, start: usize, end: usize) -> usize
    requires last_le_at { last ≤ at }
    requires stands { Stands bytes.now at tag start end }
    ensures { LabelEnds bytes.now last at result }
{
    if tag == EXTERNAL_LABEL {
        return end_above(bytes, last, at, start, end);
    }
    if tag == DEFINED_LABEL {
        if end - start < NUMBER_BYTES {
            return at;
        }
        return end_above(bytes, last, at, start + NUMBER_BYTES, end);
    }
    at
}

// Where the field at `at` ends, if it is that of a label whose name may follow the one from `last` up to `at`; if not, `at`.
pub fn label_end(bytes: &[u8], last: usize, at: usize) -> usize
    requires { last ≤ at }
    ensures { LabelEnds bytes.now last at result }
{
    match stored_read::field_at(bytes, at) {
        Field::Over => at,
        Field::CutShort => at,
        Field::Found { tag, start, end } => field_end(bytes, last, at, tag, start, end),
    }
}

// The fields of labels from the first on, as far as each may follow: in plain numbers, since there are many.
fn run_from(bytes: &[u8], places: &mut [usize], w: Walk) -> Walk
    requires going { Going bytes.now places.old w }
    requires labels_value { (w.labels ≡ 0) × (w.owed ≡ 0) × (w.relocations ≡ 0) }
    ensures { Runs bytes.now places.old places.new w result }
{
    let mut at = w.at;
    let mut last = at;
    let mut named = 0;
    for k in 0..LABELS {
        let end = label_end(bytes, last, at);
        if end == at {
            return behind_labels(w, at, k, named);
        }
        places[k] = at;
        last = name_start(bytes, at);
        named += end - last;
        at = end;
    }
    behind_labels(w, at, LABELS, named)
}

// The fields of labels that follow, if these are the first; the step that comes next answers of the field where they stop.
pub fn label_run(bytes: &[u8], places: &mut [usize], w: Walk) -> Walk
    requires { Going bytes.now places.old w }
    ensures { Runs bytes.now places.old places.new w result }
{
    if (w.labels == 0) & (w.owed == 0) & (w.relocations == 0) {
        return run_from(bytes, places, w);
    }
    w
}
