// Rows put into a sorted table, whose later rows move up.
#![tactic(auto)]

ghost use Rattle.std.specs.Prelude.{◌≡◌, ◌+◌, ◌≤◌, length};
ghost use Rattle.base_rows.specs.Opened.{inserted};

// A row at cell k of the n cells in use: what stood at k or after it stands behind the row.
pub fn insert<T: Copy>(t: &mut [T], n: usize, k: usize, row: &[T])
    requires { (k ≤ n) × (n + length row.now ≤ length t.old) }
    ensures { t.new ≡ inserted t.old n k row.now }
{
    t.copy_within(k..n, k + row.len());
    t[k..k + row.len()].copy_from_slice(row);
}
