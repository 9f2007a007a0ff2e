// Fields of labels that follow one another in stored bytes, put into the lent labels and names while they are looked at, in plain numbers, since there are many.
#![tactic(auto)]

ghost use Rattle.std.specs.Prelude.{◌≡◌, ◌-◌};
ghost use Rattle.stored_walk.specs.Walking.{Going};
ghost use Rattle.stored_walk.specs.Behind.{NamedAt};
ghost use Rattle.stored_run.specs.Following.{name_start};
ghost use Rattle.stored_put.specs.Laid.{LabelRoom};
ghost use Rattle.stored_put_labels.specs.Putting.{PutNamed, Roomy, PutRun};

use base_capacities::LABELS;
use stored_fields::{DEFINED_LABEL, HEAD_BYTES};
use stored_run::{behind_labels, label_end, name_start};
use stored_walk::Walk;

// The label whose field stands from `at` up to `end`, as row k; its name goes behind `named` name bytes.
fn put_named(
    bytes: &[u8],
    at: usize,
    end: usize,
    labels: &mut [u32],
    names: &mut [u8],
    k: usize,
    named: usize,
)
    requires named_at { NamedAt bytes.now at (name_start bytes.now at) end }
    requires label_room { LabelRoom labels.old names.old k named (end - name_start bytes.now at) }
    ensures { PutNamed bytes.now at end labels.old names.old labels.new names.new k named }
{
    let start = at + HEAD_BYTES;
    if bytes[at] == DEFINED_LABEL {
        stored_put::put_defined(bytes, start, end, labels, names, k, named);
    } else {
        stored_put::put_external(bytes, start, end, labels, names, k, named);
    }
}

// The fields of labels from the first on, as far as each may follow.
fn put_from(
    bytes: &[u8],
    places: &mut [usize],
    w: Walk,
    room: usize,
    labels: &mut [u32],
    names: &mut [u8],
) -> Walk
    requires going { Going bytes.now places.old w }
    requires labels_value { (w.labels ≡ 0) × (w.owed ≡ 0) × (w.relocations ≡ 0) }
    requires roomy { Roomy labels.old names.old }
    ensures { PutRun bytes.now places.old places.new w result room labels.old names.old labels.new names.new }
{
    let mut at = w.at;
    let mut last = at;
    let mut named = 0;
    for k in 0..LABELS {
        let end = label_end(bytes, last, at);
        if end == at {
            return behind_labels(w, at, k, named);
        }
        places[k] = at;
        put_named(bytes, at, end, labels, names, k, named);
        last = name_start(bytes, at);
        named += end - last;
        at = end;
    }
    behind_labels(w, at, LABELS, named)
}

// The fields of labels that follow, if these are the first and the words up to there fit; the step that comes next answers of the field where they stop.
pub fn put_run(
    bytes: &[u8],
    places: &mut [usize],
    w: Walk,
    room: usize,
    labels: &mut [u32],
    names: &mut [u8],
) -> Walk
    requires going { Going bytes.now places.old w }
    requires roomy { Roomy labels.old names.old }
    ensures { PutRun bytes.now places.old places.new w result room labels.old names.old labels.new names.new }
{
    if w.words <= room {
        if (w.labels == 0) & (w.owed == 0) & (w.relocations == 0) {
            return put_from(bytes, places, w, room, labels, names);
        }
        return w;
    }
    w
}
