// Lent buffers of bytes, words and table cells: cleared, pasted into, and filled from the front with a blank behind.
#![tactic(auto)]

ghost use Rattle.std.specs.Prelude.{◌≡◌, ◌+◌, ◌-◌, ◌*◌, ◌≤◌, ◌<◌, ◌++◌, length, replicate};
ghost use Rattle.std.proofs.Math.Seq.{paste};
ghost use Rattle.base_buffers.specs.Rows.{with_row};
ghost use Rattle.base_buffers.specs.Eights.{with_eight, PutRest};

// Every cell is the blank afterwards.
pub fn clear<T: Copy>(b: &mut [T], blank: T)
    ensures { b.new ≡ replicate (length b.old) blank }
{
    for cell in b.iter_mut() {
        *cell = blank;
    }
}

// All of src, from index `at` of dst. A loop of its own: `copy_from_slice` would have the archive for C need a function of the C library.
pub fn put<T: Copy>(dst: &mut [T], at: usize, src: &[T])
    requires { at + length src.now ≤ length dst.old }
    ensures { dst.new ≡ paste dst.old at src.now (length src.now) }
{
    for i in 0..src.len() {
        dst[at + i] = src[i];
    }
}

// How many bytes are copied in one step.
const STEP: usize = 8;

// The eight bytes from index i of src, to where they go if all of src goes to index `at`. They are read before they are written, so that they are copied at once.
fn put_eight(dst: &mut [u8], at: usize, src: &[u8], i: usize)
    requires { (at + length src.now ≤ length dst.old) × (i + 8 ≤ length src.now) }
    ensures { dst.new ≡ with_eight dst.old at src.now i }
{
    let second = i + 1;
    let third = i + 2;
    let fourth = i + 3;
    let fifth = i + 4;
    let sixth = i + 5;
    let seventh = i + 6;
    let eighth = i + 7;
    let a = src[i];
    let b = src[second];
    let c = src[third];
    let d = src[fourth];
    let e = src[fifth];
    let f = src[sixth];
    let g = src[seventh];
    let h = src[eighth];
    dst[at + i] = a;
    dst[at + second] = b;
    dst[at + third] = c;
    dst[at + fourth] = d;
    dst[at + fifth] = e;
    dst[at + sixth] = f;
    dst[at + seventh] = g;
    dst[at + eighth] = h;
}

// The rest of src from index i on, of which all that is before went there already.
fn put_rest(dst: &mut [u8], at: usize, src: &[u8], i: usize)
    requires { (at + length src.now ≤ length dst.old) × (i ≤ length src.now) }
    ensures { PutRest dst.old dst.new at src.now i }
{
    for k in i..src.len() {
        dst[at + k] = src[k];
    }
}

// The same as put, for what is short, as names are.
pub fn put_name(dst: &mut [u8], at: usize, src: &[u8])
    requires { at + length src.now ≤ length dst.old }
    ensures { dst.new ≡ paste dst.old at src.now (length src.now) }
{
    let mut i = 0;
    // A while: steps of 8 bytes, as long as so many are left.
    while STEP <= src.len() - i {
        put_eight(dst, at, src, i);
        i += STEP;
    }
    put_rest(dst, at, src, i);
}

// src at the front of dst, and blanks.
pub fn lay<T: Copy>(dst: &mut [T], src: &[T], blank: T)
    requires { length src.now ≤ length dst.old }
    ensures { dst.new ≡ src.now ++ replicate (length dst.old - length src.now) blank }
{
    clear(dst, blank);
    put(dst, 0, src);
}

// The cells of a row, in the tables whose rows are of two.
const ROW_CELLS: usize = 2;

// Row k of a table of rows of two.
pub fn row<T: Copy>(t: &mut [T], k: usize, a: T, b: T)
    requires { k * 2 + 1 < length t.old }
    ensures { t.new ≡ with_row t.old k a b }
{
    let i = k * ROW_CELLS;
    t[i] = a;
    t[i + 1] = b;
}
