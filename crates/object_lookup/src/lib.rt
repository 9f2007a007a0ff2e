// What a lent object says of a name, and which name it has at an address. `object::label_name` hands out a row's name.
#![tactic(auto)]

ghost use Rattle.std.specs.Prelude.{◌≡◌, map, Ok};
ghost use Rattle.rules.specs.Base.{ok};
ghost use Rattle.rules.specs.Tokens.{upper};
ghost use Rattle.rules.specs.Tables.{look, name_order};
ghost use Rattle.rules.specs.Objects.{lookup_label};
ghost use Rattle.rules.specs.Buffers.{six, view, view_labels, LabelsOk};
ghost use Rattle.rules.specs.Calls.{OfObject};
ghost use Rattle.object.specs.Meaning.{counts};
ghost use Rattle.object_lookup.specs.Told.{said, Reached, Reversed};

use base_capacities::LABEL_CELLS;
use object::{Counts, Label};
use object_check::ObjectErr;

// What n valid label rows say of a name.
fn say_name(labels: &[u32], names: &[u8], n: usize, name: &[u8]) -> Option<Label>
    requires { LabelsOk n labels.now names.now }
    ensures { said (Ok result) ≡ ok (look name_order (view_labels n labels.now names.now) (map upper name.now)) }
{
    match object::slot_of(labels, names, n, name) {
        Ok(k) => Some(object::label_at(labels, k)),
        Err(_) => None,
    }
}

// The first of n valid label rows at an address.
fn first_at(labels: &[u32], names: &[u8], n: usize, address: u32) -> Option<usize>
    requires { LabelsOk n labels.now names.now }
    ensures { Reached n labels.now names.now address result }
{
    for k in 0..n {
        if labels[k * LABEL_CELLS] == address {
            return Some(k);
        }
    }
    None
}

// What the object says of a name, matched in upper case; or 42 or 43.
pub fn lookup_label(
    c: Counts,
    blocks: &[u16],
    words: &[u16],
    marks: &[u8],
    labels: &[u32],
    relocations: &[u32],
    names: &[u8],
    name: &[u8],
) -> Result<Option<Label>, ObjectErr>
    ensures { OfObject (counts c) (six blocks.now words.now marks.now labels.now relocations.now names.now) (ok (lookup_label (view (counts c) (six blocks.now words.now marks.now labels.now relocations.now names.now)) name.now)) (said result) }
{
    let n = c.labels;
    object_check::check_object(c, blocks, words, marks, labels, relocations, names)?;
    Ok(say_name(labels, names, n, name))
}

// The label at an address: of several the smallest name answers, externals counted at 0. Its row; or 42 or 43.
pub fn rev_lookup_label(
    c: Counts,
    blocks: &[u16],
    words: &[u16],
    marks: &[u8],
    labels: &[u32],
    relocations: &[u32],
    names: &[u8],
    address: u32,
) -> Result<Option<usize>, ObjectErr>
    ensures { Reversed (counts c) (six blocks.now words.now marks.now labels.now relocations.now names.now) address result }
{
    let n = c.labels;
    object_check::check_object(c, blocks, words, marks, labels, relocations, names)?;
    Ok(first_at(labels, names, n, address))
}
