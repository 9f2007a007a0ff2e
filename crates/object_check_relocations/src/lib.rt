// What 43 demands of an object's relocations.
#![tactic(auto)]

ghost use Rattle.std.specs.Prelude.{◌+◌, ◌*◌, ◌≤◌, length};
ghost use Rattle.rules.specs.Buffers.{RelocRow, RelocsOk};
ghost use Rattle.object.specs.Decides.{Decides};
ghost use Rattle.object_check_relocations.specs.Ground.{Ground, Rises};

use base_capacities::{
    EXTERNAL, LABEL_CELLS, LABEL_FLAG, RELOCATION_CELLS, RELOCATION_LABEL, RELOCATIONS,
};

// Row k names an external, and stands at a set word 0.
fn check_relocation(
    blocks: &[u16],
    nb: usize,
    words: &[u16],
    marks: &[u8],
    w: usize,
    labels: &[u32],
    m: usize,
    relocations: &[u32],
    k: usize,
) -> bool
    requires { Ground nb w m blocks.now words.now marks.now labels.now × (k * 2 + 2 ≤ length relocations.now) }
    ensures { Decides (RelocRow nb w m blocks.now words.now marks.now labels.now relocations.now k) result }
{
    let i = k * RELOCATION_CELLS;
    let j = relocations[i + RELOCATION_LABEL] as usize;
    if m <= j {
        return false;
    }
    labels[j * LABEL_CELLS + LABEL_FLAG] == EXTERNAL
        && object_check_blocks::zero_at(blocks, nb, words, marks, w, relocations[i] as usize)
}

// Row k lies above the row before.
fn rises(relocations: &[u32], k: usize) -> bool
    requires { k * 2 + 2 ≤ length relocations.now }
    ensures { Decides (Rises relocations.now k) result }
{
    k == 0 || relocations[(k - 1) * RELOCATION_CELLS] < relocations[k * RELOCATION_CELLS]
}

// The n relocation rows rise by address, each at a set word 0 and naming an external.
pub fn check_relocations(
    blocks: &[u16],
    nb: usize,
    words: &[u16],
    marks: &[u8],
    w: usize,
    labels: &[u32],
    m: usize,
    relocations: &[u32],
    n: usize,
) -> bool
    requires { Ground nb w m blocks.now words.now marks.now labels.now }
    ensures { Decides (RelocsOk n nb w m blocks.now words.now marks.now labels.now relocations.now) result }
{
    if RELOCATIONS < n {
        return false;
    }
    if relocations.len() < n * RELOCATION_CELLS {
        return false;
    }
    for k in 0..n {
        if !check_relocation(blocks, nb, words, marks, w, labels, m, relocations, k) {
            return false;
        }
        if !rises(relocations, k) {
            return false;
        }
    }
    true
}
