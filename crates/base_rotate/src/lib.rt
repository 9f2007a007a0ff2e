// Two neighbouring ranges of a buffer exchanged in place, by three reversals.
#![tactic(auto)]

ghost use Rattle.std.specs.Prelude.{◌≡◌, ◌≤◌, length};
ghost use Rattle.base_rotate.specs.Turned.{turned};

// What stands from mid to hi, then what stands from lo to mid. Where one of the two is empty nothing moves. `rotate_left` would have the archive for C need functions of the C library.
pub fn turn<T>(b: &mut [T], lo: usize, mid: usize, hi: usize)
    requires { (lo ≤ mid) × ((mid ≤ hi) × (hi ≤ length b.old)) }
    ensures { b.new ≡ turned lo mid hi b.old }
{
    if lo == mid || mid == hi {
        return;
    }
    b[lo..mid].reverse();
    b[mid..hi].reverse();
    b[lo..hi].reverse();
}
