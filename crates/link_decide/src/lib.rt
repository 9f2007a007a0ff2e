// What a link of two lent objects answers, before anything is written: 42, 43, 28, 25, then 40 and 41 counted on the result.
#![tactic(auto)]

ghost use Rattle.std.specs.Prelude.{◌≡◌, ◌≤◌, length, Err};
ghost use Rattle.rules.specs.Buffers.{six};
ghost use Rattle.object.specs.Meaning.{counts};
ghost use Rattle.link_relocations.specs.Open.{Carried};
ghost use Rattle.link_decide.specs.Decided.{open_count, given, weighed, tallied, Small, JudgeReady, Judged, Decided};
ghost use Rattle.base_refusals.specs.Refusals.{fault};

use base_capacities::{BLOCKS, LABELS, RELOCATIONS};
use base_refusals::{
    BAD_OBJECT, Fault, NO_ROOM, OVERLAPPING_BLOCKS, OVERLAPPING_LABELS, SHORT_BUFFER, TABLE_FULL,
};
use object::Counts;
use object_check::ObjectErr;

// A refusal without a place.
fn placeless(number: u16) -> Result<Counts, Fault>
    ensures { result ≡ Err (fault number 0 0) }
{
    Err(Fault {
        number,
        start: 0,
        end: 0,
    })
}

// What two lent objects, and buffers that may be too short, are together: 42 for any of the three goes before 43.
fn both_checked(
    first: Result<(), ObjectErr>,
    second: Result<(), ObjectErr>,
    short: bool,
) -> Result<(), ObjectErr>
    ensures { result ≡ given first second short }
{
    if short {
        return Err(ObjectErr::ShortBuffer);
    }
    match first {
        Err(ObjectErr::ShortBuffer) => Err(ObjectErr::ShortBuffer),
        Ok(()) => second,
        Err(ObjectErr::BadObject) => match second {
            Err(ObjectErr::ShortBuffer) => Err(ObjectErr::ShortBuffer),
            Ok(()) => Err(ObjectErr::BadObject),
            Err(ObjectErr::BadObject) => Err(ObjectErr::BadObject),
        },
    }
}

// 40 and 41 of a result with these counts, where `room` words are lent.
fn weigh(c: Counts, room: usize) -> Result<Counts, Fault>
    ensures { result ≡ weighed c room }
{
    if BLOCKS < c.blocks {
        return placeless(TABLE_FULL);
    }
    if LABELS < c.labels {
        return placeless(TABLE_FULL);
    }
    if RELOCATIONS < c.relocations {
        return placeless(TABLE_FULL);
    }
    if room < c.words {
        return placeless(NO_ROOM);
    }
    Ok(c)
}

// The counts of a result with so many label rows, where no address is shared: of the relocations of each object those count that stay open.
fn tally(
    first: Counts,
    relocations1: &[u32],
    notes1: &[u32],
    second: Counts,
    relocations2: &[u32],
    notes2: &[u32],
    rows: usize,
) -> Counts
    requires { Carried first.relocations relocations1.now notes1.now × Carried second.relocations relocations2.now notes2.now × Small first second }
    ensures { result ≡ tallied first second rows (open_count first.relocations relocations1.now notes1.now) (open_count second.relocations relocations2.now notes2.now) }
{
    let open1 = link_relocations::count_open(relocations1, first.relocations, notes1);
    let open2 = link_relocations::count_open(relocations2, second.relocations, notes2);
    Counts {
        blocks: first.blocks + second.blocks,
        words: first.words + second.words,
        labels: rows,
        relocations: open1 + open2,
    }
}

// 28, 25, 40 and 41 of two objects; where there is none of them, each label row has its note.
fn judge(
    first: Counts,
    blocks1: &[u16],
    labels1: &[u32],
    relocations1: &[u32],
    names1: &[u8],
    second: Counts,
    blocks2: &[u16],
    labels2: &[u32],
    relocations2: &[u32],
    names2: &[u8],
    room: usize,
    notes1: &mut [u32],
    notes2: &mut [u32],
) -> Result<Counts, Fault>
    requires { JudgeReady first blocks1.now labels1.now relocations1.now names1.now second blocks2.now labels2.now relocations2.now names2.now notes1.old notes2.old }
    ensures { Judged first blocks1.now labels1.now relocations1.now names1.now second blocks2.now labels2.now relocations2.now names2.now room result notes1.new notes2.new }
{
    if link_blocks::blocks_meet(blocks1, first.blocks, blocks2, second.blocks) {
        return placeless(OVERLAPPING_BLOCKS);
    }
    let matched = link_labels::match_labels(
        labels1,
        names1,
        first.labels,
        labels2,
        names2,
        second.labels,
        notes1,
        notes2,
    );
    match matched {
        Err(row) => Err(Fault {
            number: OVERLAPPING_LABELS,
            start: row,
            end: row + 1,
        }),
        Ok(rows) => {
            let c = tally(
                first,
                relocations1,
                notes1,
                second,
                relocations2,
                notes2,
                rows,
            );
            weigh(c, room)
        }
    }
}

// What a link of two lent objects into buffers that are too short or not (`small`), with `room` lent words, answers; and the notes of a link.
pub fn decide(
    first: Counts,
    blocks1: &[u16],
    words1: &[u16],
    marks1: &[u8],
    labels1: &[u32],
    relocations1: &[u32],
    names1: &[u8],
    second: Counts,
    blocks2: &[u16],
    words2: &[u16],
    marks2: &[u8],
    labels2: &[u32],
    relocations2: &[u32],
    names2: &[u8],
    small: bool,
    room: usize,
    notes1: &mut [u32],
    notes2: &mut [u32],
) -> Result<Counts, Fault>
    requires { (2048 ≤ length notes1.old) × (2048 ≤ length notes2.old) }
    ensures { Decided (counts first) (six blocks1.now words1.now marks1.now labels1.now relocations1.now names1.now) (counts second) (six blocks2.now words2.now marks2.now labels2.now relocations2.now names2.now) small room result notes1.new notes2.new }
{
    let checked1 = object_check::check_object(
        first,
        blocks1,
        words1,
        marks1,
        labels1,
        relocations1,
        names1,
    );
    let checked2 = object_check::check_object(
        second,
        blocks2,
        words2,
        marks2,
        labels2,
        relocations2,
        names2,
    );
    match both_checked(checked1, checked2, small) {
        Err(ObjectErr::ShortBuffer) => placeless(SHORT_BUFFER),
        Err(ObjectErr::BadObject) => placeless(BAD_OBJECT),
        Ok(()) => judge(
            first,
            blocks1,
            labels1,
            relocations1,
            names1,
            second,
            blocks2,
            labels2,
            relocations2,
            names2,
            room,
            notes1,
            notes2,
        ),
    }
}
